//! How a node of the map is made, or its copy begun.
ghost use Rattle.std.specs.Prelude.{◌≡◌, ◌≢◌, ◌≤◌, ◌+◌, [], Some, OnOk, IfOk, IfErr};
ghost use Rattle.ost_types.specs.Mode.{IsFileMode, IsLinkMode};
ghost use Rattle.ost_types.specs.PathMap.{IsNode};
ghost use Rattle.ost_types.specs.declared.node.NodeName.TheVariants.{Leaf};
ghost use Rattle.fs_trait.specs.declared.types.Value.TheVariants as value;
ghost use Rattle.fs_trait.specs.View.{View, named};
ghost use Rattle.fs_trait.specs.Effect.{Changed, Elapses, HasCause, Next, OfPlacing, no_new};
ghost use Rattle.file_copy.specs.Copying as copy;
ghost use Rattle.tree_copy.specs.TreeNode.{Begins, HasSource, IsBegun, OnlyMissing, TakesNode};

use file_copy::{CopyPlan, FileCopy};
use fs_trait::{Fs, FsErr, Node};
use ost_types::{Csum, FsPath, Kind, Meta, NodeName, ObjName, Text, is_file_mode, is_link_mode};
use repo_layout::object_path;
use std::alloc::Global;

/// Makes a folder or a symbolic link at the path. For a regular file, answers what copies it there.
pub(crate) fn begin_node<F: Fs>(
    alloc: Global,
    fs: &mut F,
    at: FsPath,
    node: &NodeName,
) -> Result<Option<FileCopy>, FsErr>
    requires { IsNode node.now }
    ensures told { (v : View) → F.view fs.old ≡ Some v → HasSource node.now v.now → Begins node.now at v result (F.view fs.new) }
    ensures begun { IfOk result (IsBegun node.now at) }
    ensures named { IfErr result OfPlacing }
    ensures time { Elapses (F.clock fs.old) (F.clock fs.new) (F.was fs.old) (F.was fs.new) (F.view fs.new) }
    ensures ticks { IfOk result (λ o. TakesNode o (F.clock fs.old) (F.clock fs.new)) }
    ensures cause { HasCause (F.faults fs.old) (F.faults fs.new) result }
    ensures room { F.spare fs.old ≤ F.spare fs.new + 1 }
{
    match node {
        NodeName::Folder(meta) => {
            fs.mkdir(&at, meta)?;
            Ok(None)
        }
        NodeName::Leaf(csum) => begin_leaf(alloc, fs, at, csum),
    }
}

// the same of a leaf
fn begin_leaf<F: Fs>(
    alloc: Global,
    fs: &mut F,
    at: FsPath,
    csum: &Csum,
) -> Result<Option<FileCopy>, FsErr>
    ensures told { (v : View) → F.view fs.old ≡ Some v → HasSource (Leaf csum.now) v.now → Begins (Leaf csum.now) at v result (F.view fs.new) }
    ensures begun { IfOk result (IsBegun (Leaf csum.now) at) }
    ensures named { IfErr result OfPlacing }
    ensures time { Elapses (F.clock fs.old) (F.clock fs.new) (F.was fs.old) (F.was fs.new) (F.view fs.new) }
    ensures ticks { IfOk result (λ o. TakesNode o (F.clock fs.old) (F.clock fs.new)) }
    ensures cause { HasCause (F.faults fs.old) (F.faults fs.new) result }
    ensures room { F.spare fs.old ≤ F.spare fs.new + 1 }
{
    let name = ObjName {
        csum: *csum,
        kind: Kind::File,
    };
    let from = object_path(alloc, &name)?;
    match fs.stat(&from)? {
        Some(Node::File { meta, .. }) => Ok(Some(begin_file(from, at, meta)?)),
        Some(Node::Link { meta, target }) => {
            make_link(fs, &at, &meta, &target)?;
            Ok(None)
        }
        _ => Err(FsErr::Missing),
    }
}

// what copies a regular file; `Missing` where the mode isn't that of one
fn begin_file(from: FsPath, at: FsPath, meta: Meta) -> Result<FileCopy, FsErr>
    ensures begun { IfOk result (λ c. c ≡ copy.begun from at meta) }
    ensures exact { OnlyMissing result (IsFileMode meta.mode) }
{
    if !is_file_mode(meta.mode) {
        return Err(FsErr::Missing);
    }
    Ok(FileCopy::new(CopyPlan {
        from,
        stage: at,
        meta,
    }))
}

// a symbolic link; `Missing` where it isn't a link's mode, or no target
fn make_link<F: Fs>(fs: &mut F, at: &FsPath, meta: &Meta, target: &Text) -> Result<(), FsErr>
    ensures told { (v : View) → F.view fs.old ≡ Some v → IsLinkMode meta.now.mode → target.now ≢ [] → Changed (no_new at.now v.now) v (named at.now (value.Link meta.now target.now) v) result (F.view fs.new) }
    ensures named { IfErr result OfPlacing }
    ensures time { Elapses (F.clock fs.old) (F.clock fs.new) (F.was fs.old) (F.was fs.new) (F.view fs.new) }
    ensures ticks { OnOk result (Next (F.clock fs.old) (F.clock fs.new)) }
    ensures cause { HasCause (F.faults fs.old) (F.faults fs.new) result }
    ensures room { F.spare fs.old ≤ F.spare fs.new + 1 }
{
    if !is_link_mode(meta.mode) || target.as_slice().is_empty() {
        return Err(FsErr::Missing);
    }
    fs.symlink(at, target, meta)
}
