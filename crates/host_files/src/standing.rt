//! What stands at a path of the host, by looks that follow no link.
ghost use Rattle.std.specs.Prelude.{◌≡◌, ◌≤◌, ◌↔◌, length, Err, IsTrue, OnOk, IfErr, take};
ghost use Rattle.fs_trait.specs.Effect.{OfPlacing, OfFinding, OfEmptying};
ghost use Rattle.host_files.specs.Refusal.{answered};
ghost use Rattle.host_files.specs.Reserved.{HasReserved, IsInPlace};
ghost use Rattle.host_files.specs.declared.refusal.Refusal.TheVariants.{Failed};
ghost use Rattle.host_files.specs.HostPath.{host_text};
ghost use Rattle.ost_types.specs.Path.{Name, Path, under};

use crate::leaf::open_leaf;
use crate::place::PLACE;
use crate::{Fault, HostKind, HostPath, Known, Leaf, Refusal, Young};
use ost_types::FsPath;
use std::alloc::Global;
use std::rt::Files;

/// The name that is kept for the attributes of the folder that it stands in. No node has it.
pub const ATTRIBUTES: &str = ".ost-folder";

/// Whether a path is this crate's own.
pub fn has_reserved(at: &FsPath) -> bool
    ensures { IsTrue result ↔ HasReserved at.now }
{
    at.names().iter().any(|name| name.as_str() == ATTRIBUTES) || is_in_place(at)
}

// Whether a path is that of the reserved place, or leads through it.
fn is_in_place(at: &FsPath) -> bool
    ensures { IsTrue result ↔ IsInPlace at.now }
{
    match at.names().first() {
        Some(name) => name.as_str() == PLACE,
        None => false,
    }
}

/// What stands at a path.
#[derive(Drop)]
pub enum Standing<F> {
    Absent,
    Folder,
    /// The young leaf of this number.
    Young(u32),
    Leaf(Leaf<F>),
}

/// What stands at a path, whose text is spelled. The first folder on the way that is absent gives `Missing`, and the
/// first leaf in a folder's place `NotFolder`. A link of the host, a device, a file that is no content stream and a path
/// that is reserved are `Failed`.
pub fn walk<R: Files>(
    rt: &R,
    alloc: Global,
    known: &mut Known,
    young: &Young<R::File>,
    at: &FsPath,
    text: &mut HostPath,
) -> Result<Standing<R::File>, Refusal>
    ensures reserved { HasReserved at.now → result ≡ Err Failed }
    ensures spelled { OnOk result (text.new ≡ host_text at.now) }
    ensures short { OnOk result (length text.new ≤ 2049) }
    ensures placing { IfErr (answered result) OfPlacing }
    ensures finding { IfErr (answered result) OfFinding }
    ensures emptying { IfErr (answered result) OfEmptying }
{
    if has_reserved(at) {
        return Err(Refusal::Failed);
    }
    spell_parent(at, text);
    if !known.contains(text.as_str()) {
        walk_folders(rt, alloc, known, young, at, text)?;
    }
    spell(at, text);
    Ok(look(rt, alloc, known, young, text.as_str())?)
}

// Walks through the folders above the last name.
fn walk_folders<R: Files>(
    rt: &R,
    alloc: Global,
    known: &mut Known,
    young: &Young<R::File>,
    at: &FsPath,
    text: &mut HostPath,
) -> Result<(), Refusal>
    ensures placing { IfErr (answered result) OfPlacing }
    ensures finding { IfErr (answered result) OfFinding }
    ensures emptying { IfErr (answered result) OfEmptying }
{
    for count in 0..at.names().len() {
        spell_front(at, count, text);
        pass(look(rt, alloc, known, young, text.as_str())?)?;
    }
    Ok(())
}

// Whether a path can go on below what stands there.
fn pass<F: Drop>(standing: Standing<F>) -> Result<(), Refusal>
    ensures placing { IfErr (answered result) OfPlacing }
    ensures finding { IfErr (answered result) OfFinding }
    ensures emptying { IfErr (answered result) OfEmptying }
{
    match standing {
        Standing::Folder => Ok(()),
        Standing::Absent => Err(Refusal::Missing),
        Standing::Young(_) | Standing::Leaf(_) => Err(Refusal::NotFolder),
    }
}

// What stands at the end of a text, above which there are only folders.
fn look<R: Files>(
    rt: &R,
    alloc: Global,
    known: &mut Known,
    young: &Young<R::File>,
    text: &str,
) -> Result<Standing<R::File>, Fault> {
    if known.contains(text) {
        return Ok(Standing::Folder);
    }
    if let Some(number) = young.find(text) {
        return Ok(Standing::Young(number));
    }
    match HostKind::of(rt, text)? {
        HostKind::Absent => Ok(Standing::Absent),
        HostKind::Folder => {
            known.add(text);
            Ok(Standing::Folder)
        }
        HostKind::File(size) => Ok(Standing::Leaf(open_leaf(rt, alloc, text, size)?)),
    }
}

/// The text of a path.
pub fn spell(at: &FsPath, text: &mut HostPath)
    ensures text { text.new ≡ host_text at.now }
    ensures short { length text.new ≤ 2049 }
{
    spell_front(at, at.names().len(), text);
}

/// The text of the folder that the last name of a path stands in.
pub fn spell_parent(at: &FsPath, text: &mut HostPath)
    ensures text { (p : Path) (x : Name) → at.now ≡ under p x → text.new ≡ host_text p }
    ensures short { length text.new ≤ 2049 }
{
    spell_front(at, at.names().len().saturating_sub(1), text);
}

// The text of so many names of a path.
fn spell_front(at: &FsPath, count: usize, text: &mut HostPath)
    requires { count ≤ length at.now }
    ensures text { text.new ≡ host_text (take count at.now) }
    ensures short { length text.new ≤ 2049 }
{
    let names = at.names();
    text.restart();
    for name in &names[..count] {
        text.push(name.as_str());
    }
}
