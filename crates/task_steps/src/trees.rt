//! A small tree, and where it comes to stand.
ghost use Rattle.std.specs.Prelude.{◌≡◌, ◌≤◌, false, IfOk, length};
ghost use Rattle.ost_types.specs.Path.{under};
ghost use Rattle.checkout.specs.CheckoutWork.{IsPlaced};
ghost use Rattle.tree_copy.specs.TreeWork.{most_paths};
ghost use Rattle.deploy_list.specs.Kernels.{has_etc};

use crate::stop::Stop;
use disk_fixtures::folder_meta;
use ost_types::{Csum, FsPath, Name, NodeName, PathMap};
use std::alloc::Global;

/// A folder with one file in it, which has this object.
pub fn small_tree(alloc: Global, into: &FsPath, object: Csum) -> Result<PathMap, Stop>
    ensures placed { IfOk result (IsPlaced into.now) }
    ensures few { IfOk result (λ t. length t ≤ most_paths) }
    ensures no_etc { IfOk result (λ t. has_etc t ≡ false) }
{
    let root = FsPath::root(alloc);
    let file = child_of(alloc, &root, b"file")?;
    if !into.can_join(&root) {
        return Err(Stop::Unmade);
    }
    if !into.can_join(&file) {
        return Err(Stop::Unmade);
    }
    let mut tree = PathMap::new(alloc);
    if !tree.fits(&root) {
        return Err(Stop::Unmade);
    }
    tree.push(root, NodeName::Folder(folder_meta(alloc, 0)))?;
    if !tree.fits(&file) {
        return Err(Stop::Unmade);
    }
    tree.push(file, NodeName::Leaf(object))?;
    Ok(tree)
}

/// The path of this name in the folder.
pub fn child_of(alloc: Global, folder: &FsPath, name: &[u8]) -> Result<FsPath, Stop>
    ensures { IfOk result (λ p. p ≡ under folder.now name.now) }
{
    let name = Name::parse(alloc, name)?.ok_or(Stop::Unmade)?;
    if !folder.can_hold(&name) {
        return Err(Stop::Unmade);
    }
    Ok(folder.child(&name)?)
}
