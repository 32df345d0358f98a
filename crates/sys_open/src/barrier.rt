//! The barrier of an opening.
ghost use Rattle.std.specs.Prelude.{◌≡◌, ◌≤◌, Some, OnOk, IfErr};
ghost use Rattle.fs_trait.specs.View.{View, all_synced};
ghost use Rattle.fs_trait.specs.Effect.{Next};
ghost use Rattle.fs_trait.specs.Change.{Nothing};
ghost use Rattle.sys_open.specs.Changes.{Works};
ghost use Rattle.sys_open.specs.Faults.{HasReason, IsInterruption};

use crate::fault::{OpenFault, refused};
use fs_trait::Fs;
use ost_types::FsPath;
use std::alloc::Global;

/// Makes all that stands there outlast a crash.
pub fn barrier<F: Fs>(alloc: Global, fs: &mut F) -> Result<(), OpenFault>
    ensures works { (v : View) → F.view fs.old ≡ Some v → Works Nothing v (F.clock fs.old) (F.clock fs.new) (F.was fs.old) (F.was fs.new) (F.view fs.new) }
    ensures synced { (v : View) → F.view fs.old ≡ Some v → OnOk result (F.view fs.new ≡ Some (all_synced v)) }
    ensures ticks { OnOk result (Next (F.clock fs.old) (F.clock fs.new)) }
    ensures fails { IfErr result IsInterruption }
    ensures later { F.clock fs.old ≤ F.clock fs.new }
    ensures reason { HasReason (F.faults fs.old) (F.faults fs.new) result }
{
    match fs.sync_all() {
        Ok(()) => Ok(()),
        Err(error) => Err(refused(&FsPath::root(alloc), error)),
    }
}
