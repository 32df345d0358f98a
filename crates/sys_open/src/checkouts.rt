//! The checkouts of a disk.
ghost use Rattle.std.specs.Prelude.{◌≡◌, Some, IfOk, IfErr, true};
ghost use Rattle.fs_trait.specs.View.{View};
ghost use Rattle.fs_trait.specs.Image.{is_folder};
ghost use Rattle.fs_trait.specs.Effect.{IsListing, IsQuiet};
ghost use Rattle.repo_layout.specs.declared.folder.Folder.TheVariants as layout;
ghost use Rattle.repo_layout.specs.Paths.{folder_path};
ghost use Rattle.sys_open.specs.Faults.{HasReason, IsInterruption};

use crate::fault::{OpenFault, refused};
use fs_trait::Fs;
use ost_types::Names;
use repo_layout::{Folder, folder_path};
use std::alloc::Global;

/// The names in the folder of checkouts, ascending.
pub fn checkouts<F: Fs>(alloc: Global, fs: &mut F) -> Result<Names, OpenFault>
    requires { (v : View) → F.view fs.old ≡ Some v → is_folder (v.now.at (folder_path layout.Checkouts)) ≡ true }
    ensures told { (v : View) → F.view fs.old ≡ Some v → IfOk result (IsListing v.now (folder_path layout.Checkouts)) }
    ensures quiet { IsQuiet (F.clock fs.old) (F.clock fs.new) (F.was fs.old) (F.was fs.new) (F.view fs.old) (F.view fs.new) }
    ensures fails { (v : View) → F.view fs.old ≡ Some v → IfErr result IsInterruption }
    ensures reason { HasReason (F.faults fs.old) (F.faults fs.new) result }
{
    let at = folder_path(alloc, Folder::Checkouts)?;
    match fs.list(&at) {
        Ok(names) => Ok(names),
        Err(error) => Err(refused(&at, error)),
    }
}
