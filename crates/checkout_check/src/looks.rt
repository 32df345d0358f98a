//! What a checkout begins with, as reads show it.
ghost use Rattle.std.specs.Prelude.{◌≡◌, ◌≤◌, ◌↔◌, Some, IfOk, IsTrue, true};
ghost use Rattle.ost_types.specs.PathMap.{IsPathMap};
ghost use Rattle.fs_trait.specs.View.{View};
ghost use Rattle.fs_trait.specs.Seen.{shows, IsDirectory};
ghost use Rattle.fs_trait.specs.Effect.{HasCause};
ghost use Rattle.checkout.specs.CheckoutFolder.{HasLeaves, IsLeaf, leaf_path};
ghost use Rattle.checkout_check.specs.Sketches.{IsThere};

use fs_trait::{Fs, FsErr, Node};
use ost_types::{Csum, FsPath, Kind, NodeName, ObjName, PathMap};
use repo_layout::object_path;
use std::alloc::Global;

/// Whether a folder stands there.
pub fn is_folder<F: Fs>(fs: &mut F, at: &FsPath) -> Result<bool, FsErr>
    ensures told { (v : View) → F.view fs.old ≡ Some v → IfOk result (λ b. IsTrue b ↔ IsDirectory (shows v.now at.now)) }
    ensures same { F.view fs.new ≡ F.view fs.old }
    ensures cause { HasCause (F.faults fs.old) (F.faults fs.new) result }
{
    match fs.stat(at)? {
        None => Ok(false),
        Some(Node::Folder(_)) => Ok(true),
        Some(Node::File { .. }) => Ok(false),
        Some(Node::Link { .. }) => Ok(false),
    }
}

/// Whether a leaf stands where the leaf's object is.
fn is_leaf<F: Fs>(alloc: Global, fs: &mut F, csum: &Csum) -> Result<bool, FsErr>
    ensures told { (v : View) → F.view fs.old ≡ Some v → IfOk result (λ b. IsTrue b ↔ IsLeaf (shows v.now (leaf_path csum.now))) }
    ensures same { F.view fs.new ≡ F.view fs.old }
    ensures cause { HasCause (F.faults fs.old) (F.faults fs.new) result }
{
    let name = ObjName {
        csum: *csum,
        kind: Kind::File,
    };
    match fs.stat(&object_path(alloc, &name)?)? {
        None => Ok(false),
        Some(Node::Folder(_)) => Ok(false),
        Some(Node::File { .. }) => Ok(true),
        Some(Node::Link { .. }) => Ok(true),
    }
}

/// Whether the node is a folder, or its object is there.
fn is_there<F: Fs>(alloc: Global, fs: &mut F, node: &NodeName) -> Result<bool, FsErr>
    ensures told { (v : View) → F.view fs.old ≡ Some v → IfOk result (λ b. IsTrue b ↔ IsThere v.now node.now) }
    ensures same { F.view fs.new ≡ F.view fs.old }
    ensures cause { HasCause (F.faults fs.old) (F.faults fs.new) result }
{
    match node {
        NodeName::Folder(_) => Ok(true),
        NodeName::Leaf(csum) => is_leaf(alloc, fs, csum),
    }
}

/// Whether the objects of all leaves are there.
pub fn leaves_are_there<F: Fs>(alloc: Global, fs: &mut F, tree: &PathMap) -> Result<bool, FsErr>
    ensures told { (v : View) → F.view fs.old ≡ Some v → IfOk result (λ b. IsTrue b ↔ HasLeaves v.now tree.now) }
    ensures same { F.view fs.new ≡ F.view fs.old }
    ensures cause { HasCause (F.faults fs.old) (F.faults fs.new) result }
{
    for entry in tree.as_slice() {
        if !is_there(alloc, fs, &entry.1)? {
            return Ok(false);
        }
    }
    Ok(true)
}
