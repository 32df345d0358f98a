//! Whether a list of deployments is selected.
ghost use Rattle.std.specs.Prelude.{◌≡◌, ◌↔◌, ◌≤◌, Some, IfErr, IfOk, IsTrue};
ghost use Rattle.fs_trait.specs.View.{View};
ghost use Rattle.fs_trait.specs.Effect.{HasCause, IsQuiet, OfNone};
ghost use Rattle.durable_list.specs.Standing.{HasLoader};

use boot_plan::loader_path;
use fs_trait::{Fs, FsErr};
use ref_room::{Stands, look_at};
use std::alloc::Global;

/// Whether a list is selected. Without the boot loader's link nobody knows what boots: its folder may just not be mounted.
pub(crate) fn has_loader<F: Fs>(alloc: Global, fs: &mut F) -> Result<bool, FsErr>
    ensures told { (v : View) → F.view fs.old ≡ Some v → IfOk result (λ found. IsTrue found ↔ HasLoader v.now) }
    ensures named { IfErr result OfNone }
    ensures quiet { IsQuiet (F.clock fs.old) (F.clock fs.new) (F.was fs.old) (F.was fs.new) (F.view fs.old) (F.view fs.new) }
    ensures keeps_room { F.spare fs.old ≤ F.spare fs.new }
    ensures cause { HasCause (F.faults fs.old) (F.faults fs.new) result }
{
    let at = loader_path(alloc)?;
    match look_at(fs, &at)? {
        Stands::Nothing => Ok(false),
        Stands::Folder => Ok(true),
        Stands::Leaf => Ok(true),
    }
}
