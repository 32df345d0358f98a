//! A look at the path of one node of a tree.
ghost use Rattle.std.specs.Prelude.{◌≡◌, ◌≤◌, ◌++◌, Some, IfErr};
ghost use Rattle.ost_types.specs.Path.{Path};
ghost use Rattle.fs_trait.specs.View.{View};
ghost use Rattle.fs_trait.specs.Effect.{HasCause, IsQuiet, OfFinding};
ghost use Rattle.fs_trait.specs.Seen.{shows, IsDirectory};
ghost use Rattle.checkout_compare.specs.Looking.{Looks, LooksInside};

use crate::names::{all_fit, first_new};
use crate::stands::stands_as;
use fs_trait::{Fs, FsErr};
use ost_types::{FsPath, NodeName, PathMap};
use std::alloc::Global;

/// What was found at the path of a node.
#[derive(Drop, Debug)]
pub(crate) enum Looked {
    /// Something else than the node, or a folder with a name whose path is past the bounds of paths.
    Other,
    /// The node; and where it is a folder, the first path in it that is none of the tree.
    Same(Option<FsPath>),
}

/// Looks what stands in the folder at the path of a node, and which names stand there.
pub(crate) fn look<F: Fs>(
    alloc: Global,
    fs: &mut F,
    into: &FsPath,
    tree: &PathMap,
    path: &FsPath,
    node: &NodeName,
) -> Result<Looked, FsErr>
    ensures told { (v : View) → F.view fs.old ≡ Some v → Looks v.now into.now tree.now path.now node.now result }
    ensures named { IfErr result OfFinding }
    ensures quiet { IsQuiet (F.clock fs.old) (F.clock fs.new) (F.was fs.old) (F.was fs.new) (F.view fs.old) (F.view fs.new) }
    ensures room { F.spare fs.old ≤ F.spare fs.new }
    ensures cause { HasCause (F.faults fs.old) (F.faults fs.new) result }
{
    if !into.can_join(path) {
        return Ok(Looked::Other);
    }
    let at = into.join(path)?;
    let stands = stands_as(alloc, fs, &at, node)?;
    if !stands {
        return Ok(Looked::Other);
    }
    match node {
        NodeName::Leaf(_) => Ok(Looked::Same(None)),
        NodeName::Folder(_) => look_inside(fs, tree, path, &at),
    }
}

// looks at the names in the folder that stands there
fn look_inside<F: Fs>(
    fs: &mut F,
    tree: &PathMap,
    path: &FsPath,
    at: &FsPath,
) -> Result<Looked, FsErr>
    requires inside { (into : Path) × (at.now ≡ into ++ path.now) }
    requires there { (v : View) → F.view fs.old ≡ Some v → IsDirectory (shows v.now at.now) }
    ensures told { (v : View) (into : Path) → F.view fs.old ≡ Some v → at.now ≡ into ++ path.now → LooksInside v.now into tree.now path.now result }
    ensures named { IfErr result OfFinding }
    ensures quiet { IsQuiet (F.clock fs.old) (F.clock fs.new) (F.was fs.old) (F.was fs.new) (F.view fs.old) (F.view fs.new) }
    ensures room { F.spare fs.old ≤ F.spare fs.new }
    ensures cause { HasCause (F.faults fs.old) (F.faults fs.new) result }
{
    let names = fs.list(at)?;
    if !all_fit(at, names.as_slice()) {
        return Ok(Looked::Other);
    }
    let new = first_new(tree, path, names.as_slice())?;
    Ok(Looked::Same(new))
}
