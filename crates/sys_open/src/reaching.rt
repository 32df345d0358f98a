//! What stands at a staging path can be removed.
ghost use Rattle.std.specs.Prelude.{◌≡◌, ◌≤◌, Some, true};
ghost use Rattle.fs_trait.specs.View.{View};
ghost use Rattle.fs_trait.specs.Image.{is_folder};
ghost use Rattle.fs_trait.specs.Effect.{IsQuiet};
ghost use Rattle.sys_open.specs.declared.fault.Why.TheVariants.{WrongKind};
ghost use Rattle.sys_open.specs.Faults.{HasReason};
ghost use Rattle.layout_rules.specs.Checks.{IsReached};
ghost use Rattle.sys_open.specs.Walk.{Walked};

use crate::children::children;
use crate::fault::{OpenFault, Why, refused};
use fs_trait::Fs;
use ost_types::FsPath;
use ref_room::{Stands, look_at};
use std::alloc::Global;

/// Looks at a path and all below it. The least folder is told that has a name which is too long for a path.
#[cycle(reach)]
pub fn reach<F: Fs>(alloc: Global, fs: &mut F, at: &FsPath) -> Result<(), OpenFault>
    ensures told { (v : View) → F.view fs.old ≡ Some v → Walked (IsReached v.now) WrongKind at.now result }
    ensures quiet { IsQuiet (F.clock fs.old) (F.clock fs.new) (F.was fs.old) (F.was fs.new) (F.view fs.old) (F.view fs.new) }
    ensures reason { HasReason (F.faults fs.old) (F.faults fs.new) result }
{
    match look_at(fs, at) {
        Ok(Stands::Nothing) => Ok(()),
        Ok(Stands::Leaf) => Ok(()),
        Ok(Stands::Folder) => reach_folder(alloc, fs, at),
        Err(error) => Err(refused(at, error)),
    }
}

#[cycle(reach)]
fn reach_folder<F: Fs>(alloc: Global, fs: &mut F, at: &FsPath) -> Result<(), OpenFault>
    requires { (v : View) → F.view fs.old ≡ Some v → is_folder (v.now.at at.now) ≡ true }
    ensures told { (v : View) → F.view fs.old ≡ Some v → Walked (IsReached v.now) WrongKind at.now result }
    ensures quiet { IsQuiet (F.clock fs.old) (F.clock fs.new) (F.was fs.old) (F.was fs.new) (F.view fs.old) (F.view fs.new) }
    ensures reason { HasReason (F.faults fs.old) (F.faults fs.new) result }
{
    let inside = children(alloc, fs, at, Why::WrongKind)?;
    for path in inside.as_slice() {
        reach(alloc, fs, path)?;
    }
    Ok(())
}
