//! Whether the node of a tree stands at a path.
ghost use Rattle.std.specs.Prelude.{◌≡◌, ◌≤◌, ◌↔◌, Some, IfOk, IfErr, IsTrue};
ghost use Rattle.ost_types.specs.declared.node.NodeName.TheVariants.{Leaf};
ghost use Rattle.fs_trait.specs.View.{View};
ghost use Rattle.fs_trait.specs.declared.types.Node.TheVariants.{File};
ghost use Rattle.fs_trait.specs.Effect.{HasCause, IsNode, IsQuiet, OfNone};
ghost use Rattle.fs_trait.specs.Seen.{Directory, Symlink, shows};
ghost use Rattle.checkout_compare.specs.Compare.{IsEmptyFile};
ghost use Rattle.checkout_compare.specs.Looking.{IsAs, IsLeafOf};

use crate::same::{is_empty_file_of, is_folder_of, is_link_of};
use fs_trait::{Fs, FsErr, Node};
use ost_types::{Csum, FsPath, Kind, Meta, NodeName, ObjName, Text};
use repo_layout::object_path;
use std::alloc::Global;

/// Whether the node stands at the path: a folder with its attributes, or a leaf that is its object: one inode with it, an empty file
/// equal to it, or a link equal to it.
pub(crate) fn stands_as<F: Fs>(
    alloc: Global,
    fs: &mut F,
    at: &FsPath,
    node: &NodeName,
) -> Result<bool, FsErr>
    ensures told { (v : View) → F.view fs.old ≡ Some v → IfOk result (λ b. IsTrue b ↔ IsAs v.now at.now node.now) }
    ensures named { IfErr result OfNone }
    ensures quiet { IsQuiet (F.clock fs.old) (F.clock fs.new) (F.was fs.old) (F.was fs.new) (F.view fs.old) (F.view fs.new) }
    ensures room { F.spare fs.old ≤ F.spare fs.new }
    ensures cause { HasCause (F.faults fs.old) (F.faults fs.new) result }
{
    match node {
        NodeName::Folder(meta) => stands_folder(fs, at, meta),
        NodeName::Leaf(csum) => stands_leaf(alloc, fs, at, csum),
    }
}

fn stands_folder<F: Fs>(fs: &mut F, at: &FsPath, meta: &Meta) -> Result<bool, FsErr>
    ensures told { (v : View) → F.view fs.old ≡ Some v → IfOk result (λ b. IsTrue b ↔ (shows v.now at.now ≡ Directory meta.now)) }
    ensures named { IfErr result OfNone }
    ensures quiet { IsQuiet (F.clock fs.old) (F.clock fs.new) (F.was fs.old) (F.was fs.new) (F.view fs.old) (F.view fs.new) }
    ensures room { F.spare fs.old ≤ F.spare fs.new }
    ensures cause { HasCause (F.faults fs.old) (F.faults fs.new) result }
{
    let node = fs.stat(at)?;
    Ok(is_folder_of(&node, meta))
}

fn stands_leaf<F: Fs>(alloc: Global, fs: &mut F, at: &FsPath, csum: &Csum) -> Result<bool, FsErr>
    ensures told { (v : View) → F.view fs.old ≡ Some v → IfOk result (λ b. IsTrue b ↔ IsAs v.now at.now (Leaf csum.now)) }
    ensures named { IfErr result OfNone }
    ensures quiet { IsQuiet (F.clock fs.old) (F.clock fs.new) (F.was fs.old) (F.was fs.new) (F.view fs.old) (F.view fs.new) }
    ensures room { F.spare fs.old ≤ F.spare fs.new }
    ensures cause { HasCause (F.faults fs.old) (F.faults fs.new) result }
{
    let name = ObjName {
        csum: *csum,
        kind: Kind::File,
    };
    let object = object_path(alloc, &name)?;
    match fs.stat(at)? {
        Some(Node::File { meta, len }) => stands_file(fs, at, &object, &meta, len),
        Some(Node::Link { meta, target }) => stands_link(fs, &object, &meta, &target),
        Some(Node::Folder(_)) => Ok(false),
        None => Ok(false),
    }
}

// whether that file is one inode with the object, or both are empty, with the same attributes
fn stands_file<F: Fs>(
    fs: &mut F,
    at: &FsPath,
    object: &FsPath,
    meta: &Meta,
    len: u64,
) -> Result<bool, FsErr>
    ensures told { (v : View) → F.view fs.old ≡ Some v → IsNode v.now (v.now.at at.now) (Some (File meta.now len)) → IfOk result (λ b. IsTrue b ↔ IsLeafOf (shows v.now object.now) (shows v.now at.now)) }
    ensures named { IfErr result OfNone }
    ensures quiet { IsQuiet (F.clock fs.old) (F.clock fs.new) (F.was fs.old) (F.was fs.new) (F.view fs.old) (F.view fs.new) }
    ensures room { F.spare fs.old ≤ F.spare fs.new }
    ensures cause { HasCause (F.faults fs.old) (F.faults fs.new) result }
{
    if fs.same(at, object)? {
        return Ok(true);
    }
    if len > 0 {
        return Ok(false);
    }
    stands_empty_file(fs, object, meta)
}

// whether a regular file with these attributes and no bytes stands there
fn stands_empty_file<F: Fs>(fs: &mut F, at: &FsPath, meta: &Meta) -> Result<bool, FsErr>
    ensures told { (v : View) → F.view fs.old ≡ Some v → IfOk result (λ b. IsTrue b ↔ IsEmptyFile meta.now (shows v.now at.now)) }
    ensures named { IfErr result OfNone }
    ensures quiet { IsQuiet (F.clock fs.old) (F.clock fs.new) (F.was fs.old) (F.was fs.new) (F.view fs.old) (F.view fs.new) }
    ensures room { F.spare fs.old ≤ F.spare fs.new }
    ensures cause { HasCause (F.faults fs.old) (F.faults fs.new) result }
{
    let node = fs.stat(at)?;
    Ok(is_empty_file_of(&node, meta))
}

// whether a symbolic link with these attributes and this target stands there
fn stands_link<F: Fs>(fs: &mut F, at: &FsPath, meta: &Meta, target: &Text) -> Result<bool, FsErr>
    ensures told { (v : View) → F.view fs.old ≡ Some v → IfOk result (λ b. IsTrue b ↔ (shows v.now at.now ≡ Symlink meta.now target.now)) }
    ensures named { IfErr result OfNone }
    ensures quiet { IsQuiet (F.clock fs.old) (F.clock fs.new) (F.was fs.old) (F.was fs.new) (F.view fs.old) (F.view fs.new) }
    ensures room { F.spare fs.old ≤ F.spare fs.new }
    ensures cause { HasCause (F.faults fs.old) (F.faults fs.new) result }
{
    let node = fs.stat(at)?;
    Ok(is_link_of(&node, meta, target))
}
