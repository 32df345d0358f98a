//! The text of a keyfile.
ghost use Rattle.std.specs.Prelude.{◌≡◌, ◌++◌, ◌∷◌, [], Ok, IfOk, OnOk, MatchOption, Option};
ghost use Rattle.ost_types.specs.Path.{same_name};
ghost use Rattle.keyfile.specs.Line.{file_text, line_text};
ghost use Rattle.keyfile.specs.Line.Line.{Group, Key};
ghost use Rattle.keyfile.specs.Entries.{AreEntries, heading, keyfile_text};
ghost use Rattle.keyfile.specs.Reading.{Reads};

use crate::entry::KeyLine;
use ost_types::{Bytes, NoMemory};
use std::alloc::Global;

/// The text of these keys: before the first of each group the group's line, and no other lines.
pub fn write_keyfile(alloc: Global, lines: &[KeyLine]) -> Result<Bytes, NoMemory>
    requires { AreEntries lines.now }
    ensures text { IfOk result (λ text. text ≡ keyfile_text lines.now) }
    ensures back { IfOk result (λ text. Reads text (Ok lines.now)) }
{
    let mut text = Bytes::new(alloc);
    let mut group: &[u8] = &[];
    for line in lines {
        append_heading(&mut text, group, line.group.as_slice())?;
        append_key(&mut text, line.key.as_slice(), line.value.as_slice())?;
        group = line.group.as_slice();
    }
    Ok(text)
}

/// The line of the next group, where it isn't the one before.
fn append_heading(text: &mut Bytes, group: &[u8], next: &[u8]) -> Result<(), NoMemory>
    ensures { OnOk result (text.new ≡ text.old ++ file_text (heading group.now next.now)) }
{
    if next == group {
        Ok(())
    } else {
        append_group(text, next)
    }
}

fn append_group(text: &mut Bytes, name: &[u8]) -> Result<(), NoMemory>
    ensures { OnOk result (text.new ≡ text.old ++ (line_text (Group name.now) ++ 10 ∷ [])) }
{
    text.push(b'[')?;
    text.append(name)?;
    text.append(b"]\n")
}

fn append_key(text: &mut Bytes, key: &[u8], value: &[u8]) -> Result<(), NoMemory>
    ensures { OnOk result (text.new ≡ text.old ++ (line_text (Key key.now value.now) ++ 10 ∷ [])) }
{
    text.append(key)?;
    text.push(b'=')?;
    text.append(value)?;
    text.push(b'\n')
}
