//! Whether a map may be checked out at a path.
ghost use Rattle.std.specs.Prelude.{◌↔◌, [], IsTrue};
ghost use Rattle.checkout.specs.CheckoutWork.{IsPlaced};
ghost use Rattle.checkout_command.specs.Placing.{Fits, HasFolderAt, IsInFolder};

use ost_types::{FsPath, Name, NodeName, PathMap};

/// Whether the map is a tree, each of whose paths fits below this one.
pub(crate) fn is_placed(into: &FsPath, tree: &PathMap) -> bool
    ensures { IsTrue result ↔ IsPlaced into.now tree.now }
{
    if !has_folder(tree, &[]) {
        return false;
    }
    for (path, _) in tree.as_slice() {
        if !fits(into, tree, path) {
            return false;
        }
    }
    true
}

/// Whether the map has a folder at the path of these names.
fn has_folder(tree: &PathMap, names: &[Name]) -> bool
    ensures { IsTrue result ↔ HasFolderAt tree.now names.now }
{
    let nodes = tree.as_slice();
    match nodes.binary_search_by(|node| node.0.names().cmp(names)) {
        Ok(at) => matches!(nodes[at].1, NodeName::Folder(_)),
        Err(_) => false,
    }
}

/// Whether the path lies in a folder of the map, and fits below the other one.
fn fits(into: &FsPath, tree: &PathMap, path: &FsPath) -> bool
    ensures { IsTrue result ↔ Fits into.now tree.now path.now }
{
    into.can_join(path) && is_in_folder(tree, path)
}

/// Whether the path is the root, or a name in a folder of the map.
fn is_in_folder(tree: &PathMap, path: &FsPath) -> bool
    ensures { IsTrue result ↔ IsInFolder tree.now path.now }
{
    match path.names().split_last() {
        None => true,
        Some((_, folder)) => has_folder(tree, folder),
    }
}
