//! The first path at which a folder isn't the checkout of a tree.
ghost use Rattle.std.specs.Prelude.{◌≡◌, ◌≤◌, Some, IfErr};
ghost use Rattle.fs_trait.specs.View.{View};
ghost use Rattle.fs_trait.specs.Effect.{HasCause, IsQuiet, OfFinding};
ghost use Rattle.checkout.specs.CheckoutFolder.{IsTreeMap};
ghost use Rattle.checkout_compare.specs.Compare.{Finds};

use crate::etc::is_outside_etc;
use crate::least::{comes_before, lesser};
use crate::look::{Looked, look};
use fs_trait::{Fs, FsErr};
use ost_types::{FsPath, PathMap, TryCopy};
use std::alloc::Global;

/// The first path of the folder, in the order of paths, at which something else stands than the tree has there; None where the folder
/// is the checkout of the tree. What stands at the folder's `etc` and below it is passed over, and an empty file may be one of its own.
pub fn first_difference<F: Fs>(
    alloc: Global,
    fs: &mut F,
    into: &FsPath,
    tree: &PathMap,
) -> Result<Option<FsPath>, FsErr>
    requires { (v : View) → F.view fs.old ≡ Some v → IsTreeMap tree.now }
    ensures told { (v : View) → F.view fs.old ≡ Some v → Finds v.now into.now tree.now result }
    ensures named { IfErr result OfFinding }
    ensures quiet { IsQuiet (F.clock fs.old) (F.clock fs.new) (F.was fs.old) (F.was fs.new) (F.view fs.old) (F.view fs.new) }
    ensures room { F.spare fs.old ≤ F.spare fs.new }
    ensures cause { HasCause (F.faults fs.old) (F.faults fs.new) result }
{
    let _into = into.names();
    let nodes = tree.as_slice();
    // the least path that was found to be no path of the tree
    let mut least = None;
    for (path, node) in nodes {
        if !is_outside_etc(path) {
            continue;
        }
        if comes_before(&least, path) {
            return Ok(least);
        }
        match look(alloc, fs, into, tree, path, node)? {
            Looked::Other => return Ok(Some(path.copy()?)),
            Looked::Same(new) => least = lesser(least, new),
        }
    }
    Ok(least)
}
