//! Where an entry of the list that boots stands.
ghost use Rattle.std.specs.Prelude.{◌≡◌, ℕ, Some, IfOk};
ghost use Rattle.fs_trait.specs.View.{Disk, View};
ghost use Rattle.fs_trait.specs.Effect.{IsNode, IsQuiet};
ghost use Rattle.ost_types.specs.Text.{IsName};
ghost use Rattle.repo_layout.specs.BootPaths.{entry_path, loader_path};
ghost use Rattle.repo_layout.specs.Fixed.{number};
ghost use Rattle.boot_model.specs.Listing.{Selects};
ghost use Rattle.sys_open.specs.Faults.{HasReason};
ghost use Rattle.sys_open.specs.Walk.{Finds};

use crate::fault::OpenFault;
use crate::refs::node_at;
use boot_model::loader_target;
use boot_plan::loader_path;
use fs_trait::{Fs, Node};
use ost_types::{FsPath, Name, NoMemory};
use repo_layout::{Fixed, Folder, Version, fixed_path, folder_path};
use std::alloc::Global;

/// The path of the entry in this file, in the folder of the version that the boot loader's link selects.
pub fn entry_at<F: Fs>(alloc: Global, fs: &mut F, file: &Name) -> Result<FsPath, OpenFault>
    ensures told { (v : View) (loader : ℕ) → F.view fs.old ≡ Some v → Selects v.now loader → Finds (λ p. p ≡ entry_path loader file.now) result }
    ensures quiet { IsQuiet (F.clock fs.old) (F.clock fs.new) (F.was fs.old) (F.was fs.new) (F.view fs.old) (F.view fs.new) }
    ensures reason { HasReason (F.faults fs.old) (F.faults fs.new) result }
{
    let at = loader_path(alloc)?;
    let node = node_at(fs, &at)?;
    Ok(in_version(alloc, selected(node), file)?)
}

// which of the two versions this selects, where it selects one
fn selected(node: Option<Node>) -> Version
    ensures { (d : Disk) (loader : ℕ) → IsNode d (d.at loader_path) node → Selects d loader → number result ≡ loader }
{
    match node {
        Some(Node::Link { meta: _, target }) => {
            if target.as_slice() == loader_target(Version::One) {
                Version::One
            } else {
                Version::Zero
            }
        }
        Some(Node::File { .. }) => Version::Zero,
        Some(Node::Folder(_)) => Version::Zero,
        None => Version::Zero,
    }
}

fn in_version(alloc: Global, loader: Version, file: &Name) -> Result<FsPath, NoMemory>
    ensures { IfOk result (λ p. p ≡ entry_path (number loader) file.now) }
{
    // known by this: a name may stand in the folder
    let _file = file.as_slice();
    fixed_path(alloc, Fixed::Entries(loader))?.child(file)
}
