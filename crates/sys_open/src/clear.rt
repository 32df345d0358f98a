//! What stands at a staging path is removed.
ghost use Rattle.std.specs.Prelude.{◌≡◌, ◌≢◌, ◌≤◌, [], Some, OnOk, IfErr, true};
ghost use Rattle.fs_trait.specs.View.{View};
ghost use Rattle.fs_trait.specs.Image.{is_folder, Told};
ghost use Rattle.fs_trait.specs.Seen.{Vacant, shows};
ghost use Rattle.repo_layout.specs.Refs.{is_leaf};
ghost use Rattle.sys_open.specs.Faults.{HasReason, IsInterruption};
ghost use Rattle.layout_rules.specs.Checks.{IsReached};
ghost use Rattle.sys_open.specs.Walk.{IsSoBelow};
ghost use Rattle.sys_open.specs.Changes.{Clears, ClearsInside, IsEmptied, Works};

use crate::children::children;
use crate::fault::{OpenFault, Why, refused};
use fs_trait::Fs;
use ost_types::FsPath;
use ref_room::{Stands, look_at};
use std::alloc::Global;

/// Removes what stands at a path, a folder with all that is in it.
#[cycle(clear)]
pub fn clear<F: Fs>(alloc: Global, fs: &mut F, at: &FsPath) -> Result<(), OpenFault>
    requires { (v : View) → F.view fs.old ≡ Some v → at.now ≢ [] }
    ensures works { (v : View) → F.view fs.old ≡ Some v → Works (Clears at.now) v (F.clock fs.old) (F.clock fs.new) (F.was fs.old) (F.was fs.new) (F.view fs.new) }
    ensures cleared { (v : View) → F.view fs.old ≡ Some v → OnOk result (Told (F.view fs.new) (λ w. shows w.now at.now ≡ Vacant)) }
    ensures fails { (v : View) → F.view fs.old ≡ Some v → IsSoBelow (IsReached v.now) at.now → IfErr result IsInterruption }
    ensures later { F.clock fs.old ≤ F.clock fs.new }
    ensures reason { HasReason (F.faults fs.old) (F.faults fs.new) result }
{
    match look_at(fs, at) {
        Ok(Stands::Nothing) => Ok(()),
        Ok(Stands::Leaf) => unlink(fs, at),
        Ok(Stands::Folder) => clear_folder(alloc, fs, at),
        Err(error) => Err(refused(at, error)),
    }
}

#[cycle(clear)]
fn clear_folder<F: Fs>(alloc: Global, fs: &mut F, at: &FsPath) -> Result<(), OpenFault>
    requires folder { (v : View) → F.view fs.old ≡ Some v → is_folder (v.now.at at.now) ≡ true }
    requires below_root { (v : View) → F.view fs.old ≡ Some v → at.now ≢ [] }
    ensures works { (v : View) → F.view fs.old ≡ Some v → Works (Clears at.now) v (F.clock fs.old) (F.clock fs.new) (F.was fs.old) (F.was fs.new) (F.view fs.new) }
    ensures cleared { (v : View) → F.view fs.old ≡ Some v → OnOk result (Told (F.view fs.new) (λ w. shows w.now at.now ≡ Vacant)) }
    ensures fails { (v : View) → F.view fs.old ≡ Some v → IsSoBelow (IsReached v.now) at.now → IfErr result IsInterruption }
    ensures later { F.clock fs.old ≤ F.clock fs.new }
    ensures reason { HasReason (F.faults fs.old) (F.faults fs.new) result }
{
    clear_inside(alloc, fs, at)?;
    remove(fs, at)
}

#[cycle(clear)]
fn clear_inside<F: Fs>(alloc: Global, fs: &mut F, at: &FsPath) -> Result<(), OpenFault>
    requires folder { (v : View) → F.view fs.old ≡ Some v → is_folder (v.now.at at.now) ≡ true }
    requires below_root { (v : View) → F.view fs.old ≡ Some v → at.now ≢ [] }
    ensures works { (v : View) → F.view fs.old ≡ Some v → Works (ClearsInside at.now) v (F.clock fs.old) (F.clock fs.new) (F.was fs.old) (F.was fs.new) (F.view fs.new) }
    ensures emptied { (v : View) → F.view fs.old ≡ Some v → OnOk result (Told (F.view fs.new) (λ w. IsEmptied w.now at.now)) }
    ensures fails { (v : View) → F.view fs.old ≡ Some v → IsSoBelow (IsReached v.now) at.now → IfErr result IsInterruption }
    ensures later { F.clock fs.old ≤ F.clock fs.new }
    ensures reason { HasReason (F.faults fs.old) (F.faults fs.new) result }
{
    let inside = children(alloc, fs, at, Why::WrongKind)?;
    for path in inside.as_slice() {
        clear(alloc, fs, path)?;
    }
    Ok(())
}

// removes an empty folder
fn remove<F: Fs>(fs: &mut F, at: &FsPath) -> Result<(), OpenFault>
    requires { (v : View) → F.view fs.old ≡ Some v → IsEmptied v.now at.now }
    ensures works { (v : View) → F.view fs.old ≡ Some v → Works (Clears at.now) v (F.clock fs.old) (F.clock fs.new) (F.was fs.old) (F.was fs.new) (F.view fs.new) }
    ensures cleared { (v : View) → F.view fs.old ≡ Some v → OnOk result (Told (F.view fs.new) (λ w. shows w.now at.now ≡ Vacant)) }
    ensures fails { (v : View) → F.view fs.old ≡ Some v → IfErr result IsInterruption }
    ensures later { F.clock fs.old ≤ F.clock fs.new }
    ensures reason { HasReason (F.faults fs.old) (F.faults fs.new) result }
{
    match fs.rmdir(at) {
        Ok(()) => Ok(()),
        Err(error) => Err(refused(at, error)),
    }
}

// removes a leaf
fn unlink<F: Fs>(fs: &mut F, at: &FsPath) -> Result<(), OpenFault>
    requires { (v : View) → F.view fs.old ≡ Some v → is_leaf (v.now.at at.now) ≡ true }
    ensures works { (v : View) → F.view fs.old ≡ Some v → Works (Clears at.now) v (F.clock fs.old) (F.clock fs.new) (F.was fs.old) (F.was fs.new) (F.view fs.new) }
    ensures cleared { (v : View) → F.view fs.old ≡ Some v → OnOk result (Told (F.view fs.new) (λ w. shows w.now at.now ≡ Vacant)) }
    ensures fails { (v : View) → F.view fs.old ≡ Some v → IfErr result IsInterruption }
    ensures later { F.clock fs.old ≤ F.clock fs.new }
    ensures reason { HasReason (F.faults fs.old) (F.faults fs.new) result }
{
    match fs.unlink(at) {
        Ok(()) => Ok(()),
        Err(error) => Err(refused(at, error)),
    }
}
