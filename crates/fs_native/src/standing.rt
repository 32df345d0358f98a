//! What stands at a path, by looks that follow no link.
ghost use Rattle.std.specs.Prelude.{◌≡◌, ◌≤◌, ◌↔◌, length, Err, IsTrue, OnOk, IfErr};
ghost use Rattle.fs_trait.specs.Effect.{OfPlacing, OfFinding, OfEmptying};
ghost use Rattle.host_files.specs.Refusal.{answered};
ghost use Rattle.host_files.specs.Reserved.{IsInPlace};
ghost use Rattle.host_files.specs.declared.refusal.Refusal.TheVariants.{Failed};
ghost use Rattle.host_files.specs.HostPath.{host_text};

use crate::Young;
use host_files::{Fault, HostPath, Known, PLACE, Refusal, spell};
use native_nodes::{Look, Standing};
use ost_types::FsPath;
use std::rt::Files;

/// Whether a path is that of the reserved place, or leads through it.
fn is_reserved(at: &FsPath) -> bool
    ensures { IsTrue result ↔ IsInPlace at.now }
{
    match at.names().first() {
        Some(name) => name.as_str() == PLACE,
        None => false,
    }
}

/// What stands at a path, whose text is spelled. The first folder on the way that is absent gives `Missing`, and the
/// first leaf in a folder's place `NotFolder`. A FIFO, a socket, a device and a path that is reserved are `Failed`.
pub fn walk<R: Files>(
    rt: &R,
    known: &mut Known,
    young: &Young<R::File>,
    at: &FsPath,
    text: &mut HostPath,
) -> Result<Standing, Refusal>
    ensures reserved { IsInPlace at.now → result ≡ Err Failed }
    ensures spelled { OnOk result (text.new ≡ host_text at.now) }
    ensures short { OnOk result (length text.new ≤ 2049) }
    ensures placing { IfErr (answered result) OfPlacing }
    ensures finding { IfErr (answered result) OfFinding }
    ensures emptying { IfErr (answered result) OfEmptying }
{
    if is_reserved(at) {
        return Err(Refusal::Failed);
    }
    spell(at, text);
    walk_folders(rt, known, young, text.as_str())?;
    Ok(look(rt, known, young, text.as_str())?)
}

// Walks through the folders above the last name of a text. Where the last of them is known, so are the others.
fn walk_folders<R: Files>(
    rt: &R,
    known: &mut Known,
    young: &Young<R::File>,
    text: &str,
) -> Result<(), Refusal>
    ensures placing { IfErr (answered result) OfPlacing }
    ensures finding { IfErr (answered result) OfFinding }
    ensures emptying { IfErr (answered result) OfEmptying }
{
    let Some((parent, _)) = text.rsplit_once('/') else {
        return Ok(());
    };
    if known.contains(parent) {
        return Ok(());
    }
    for end in 1..parent.len() {
        pass_front(rt, known, young, parent.split_at_checked(end))?;
    }
    look(rt, known, young, parent)?.as_folder()
}

// Walks through the folder whose text is the front of one that goes on with a slash behind it.
fn pass_front<R: Files>(
    rt: &R,
    known: &mut Known,
    young: &Young<R::File>,
    parts: Option<(&str, &str)>,
) -> Result<(), Refusal>
    ensures placing { IfErr (answered result) OfPlacing }
    ensures finding { IfErr (answered result) OfFinding }
    ensures emptying { IfErr (answered result) OfEmptying }
{
    match parts {
        Some((front, rest)) if rest.starts_with('/') => look(rt, known, young, front)?.as_folder(),
        _ => Ok(()),
    }
}

// What stands at the end of a text, above which there are only folders.
fn look<R: Files>(
    rt: &R,
    known: &mut Known,
    young: &Young<R::File>,
    text: &str,
) -> Result<Standing, Fault> {
    if known.contains(text) {
        return Ok(Standing::Folder);
    }
    if let Some(number) = young.find(text) {
        return Ok(Standing::Young(number));
    }
    match Look::at(rt, text)? {
        Look::Absent => Ok(Standing::Absent),
        Look::Leaf(leaf) => Ok(Standing::Leaf(leaf)),
        Look::Folder(_) => {
            known.add(text);
            Ok(Standing::Folder)
        }
    }
}
