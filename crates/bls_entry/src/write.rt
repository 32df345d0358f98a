//! The text of an entry.
ghost use Rattle.std.specs.Prelude.{◌≡◌, ◌++◌, ◌∷◌, ◌↔◌, [], Ok, IfOk, OnOk, IfSome, IsTrue};
ghost use Rattle.std.specs.Fmt.{decimal};
ghost use Rattle.bls_entry.specs.declared.key.Key.TheVariants.{Initrd, Version};
ghost use Rattle.bls_entry.specs.Line.{file_text, line_text, spelled};
ghost use Rattle.bls_entry.specs.Entry.{CanBeWritten, MayStand, entry_text, initrd_lines, line_of};
ghost use Rattle.bls_entry.specs.Reading.{Reads};

use crate::entry::BlsEntry;
use crate::key::Key;
use crate::options::names_one;
use crate::setting::is_value;
use ost_types::{Bytes, NoMemory, Text};
use std::alloc::Global;

/// Whether the entry can be written: its title, its options, its kernel and an initramfs aren't empty, begin with no blank and
/// hold no newline, and one word of its options begins `ostree=`.
pub fn can_be_written(entry: &BlsEntry) -> bool
    ensures { IsTrue result ↔ CanBeWritten entry.now }
{
    // it is below 2^32, as its type says
    let _version = entry.version;
    may_stand(&entry.title)
        && may_stand(&entry.options)
        && names_one(entry.options.as_slice())
        && may_stand(&entry.linux)
        && may_stand_if_some(&entry.initrd)
}

fn may_stand(text: &Text) -> bool
    ensures { IsTrue result ↔ MayStand text.now }
{
    is_value(text.as_slice())
}

fn may_stand_if_some(text: &Option<Text>) -> bool
    ensures { IsTrue result ↔ IfSome text.now MayStand }
{
    match text {
        Some(text) => may_stand(text),
        None => true,
    }
}

/// The text of the entry: a line for each key, with one space behind the key.
pub fn write_entry(alloc: Global, entry: &BlsEntry) -> Result<Bytes, NoMemory>
    requires { CanBeWritten entry.now }
    ensures text { IfOk result (λ text. text ≡ entry_text entry.now) }
    ensures back { IfOk result (λ text. Reads text (Ok entry.now)) }
{
    let mut text = Bytes::new(alloc);
    append_line(&mut text, Key::Title, entry.title.as_slice())?;
    append_version(alloc, &mut text, entry.version)?;
    append_line(&mut text, Key::Options, entry.options.as_slice())?;
    append_line(&mut text, Key::Linux, entry.linux.as_slice())?;
    append_initrd(&mut text, &entry.initrd)?;
    Ok(text)
}

fn append_version(alloc: Global, text: &mut Bytes, version: u32) -> Result<(), NoMemory>
    ensures { OnOk result (text.new ≡ text.old ++ (line_text (line_of Version (decimal version)) ++ 10 ∷ [])) }
{
    append_line(
        text,
        Key::Version,
        format!(in alloc; "{version}")?.as_bytes(),
    )
}

fn append_initrd(text: &mut Bytes, initrd: &Option<Text>) -> Result<(), NoMemory>
    ensures { OnOk result (text.new ≡ text.old ++ file_text (initrd_lines initrd.now)) }
{
    match initrd {
        Some(path) => append_line(text, Key::Initrd, path.as_slice()),
        None => Ok(()),
    }
}

fn append_line(text: &mut Bytes, key: Key, value: &[u8]) -> Result<(), NoMemory>
    ensures { OnOk result (text.new ≡ text.old ++ (line_text (line_of key value.now) ++ 10 ∷ [])) }
{
    text.append(name_of(key))?;
    text.push(b' ')?;
    text.append(value)?;
    text.push(b'\n')
}

fn name_of(key: Key) -> &'static [u8]
    ensures { result.now ≡ spelled key }
{
    match key {
        Key::Title => b"title",
        Key::Version => b"version",
        Key::Options => b"options",
        Key::Linux => b"linux",
        Key::Initrd => b"initrd",
    }
}
