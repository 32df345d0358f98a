//! A look at one path.
ghost use Rattle.std.specs.Prelude.{◌≡◌, ◌≤◌, Some, IfOk, IfErr};
ghost use Rattle.fs_trait.specs.View.{View};
ghost use Rattle.fs_trait.specs.Effect.{HasCause, IsQuiet, OfFinding};
ghost use Rattle.fs_trait.specs.Seen.{Directory, shows};
ghost use Rattle.tree_scan.specs.Looking.{Finds, HasLeaf, HasNode, TellsLink};

use crate::content::content_sum;
use fs_trait::{Fs, FsErr, Node};
use ost_forms::Body;
use ost_types::{
    Csum, FsPath, Limits, Meta, Names, NoMemory, Text, is_file_mode, is_folder_mode, is_link_mode,
};
use std::alloc::Global;

/// What stands at a path.
#[derive(Drop, Debug)]
pub(crate) enum Looked {
    Nothing,
    /// A folder with these attributes and names.
    Folder(Meta, Names),
    /// A folder whose mode is none of a folder's.
    OddFolder,
    /// A file or a link whose object has this sum.
    Leaf(Csum),
    /// A file or a link that has no object within the limits.
    OddLeaf,
}

/// Looks at a path. A folder is listed, and a file is read and let go.
pub(crate) fn look<F: Fs>(
    alloc: Global,
    fs: &mut F,
    at: &FsPath,
    limits: &Limits,
) -> Result<Looked, FsErr>
    ensures told { (v : View) → F.view fs.old ≡ Some v → Finds v.now at.now limits.now.content result }
    ensures node { IfOk result HasNode }
    ensures named { IfErr result OfFinding }
    ensures quiet { IsQuiet (F.clock fs.old) (F.clock fs.new) (F.was fs.old) (F.was fs.new) (F.view fs.old) (F.view fs.new) }
    ensures keeps_room { F.spare fs.old ≤ F.spare fs.new }
    ensures cause { HasCause (F.faults fs.old) (F.faults fs.new) result }
{
    match fs.stat(at)? {
        None => Ok(Looked::Nothing),
        Some(Node::Folder(meta)) => list_folder(fs, at, meta),
        Some(Node::File { meta, len }) => {
            if len > limits.content {
                Ok(Looked::OddLeaf)
            } else {
                read_file(alloc, fs, at, meta, limits)
            }
        }
        Some(Node::Link { meta, target }) => Ok(link_sum(alloc, meta, target)?),
    }
}

fn list_folder<F: Fs>(fs: &mut F, at: &FsPath, meta: Meta) -> Result<Looked, FsErr>
    requires { (v : View) → F.view fs.old ≡ Some v → shows v.now at.now ≡ Directory meta }
    ensures told { (v : View) (limit : _) → F.view fs.old ≡ Some v → Finds v.now at.now limit result }
    ensures node { IfOk result HasNode }
    ensures named { IfErr result OfFinding }
    ensures quiet { IsQuiet (F.clock fs.old) (F.clock fs.new) (F.was fs.old) (F.was fs.new) (F.view fs.old) (F.view fs.new) }
    ensures keeps_room { F.spare fs.old ≤ F.spare fs.new }
    ensures cause { HasCause (F.faults fs.old) (F.faults fs.new) result }
{
    if !is_folder_mode(meta.mode) {
        return Ok(Looked::OddFolder);
    }
    let names = fs.list(at)?;
    Ok(Looked::Folder(meta, names))
}

fn read_file<F: Fs>(
    alloc: Global,
    fs: &mut F,
    at: &FsPath,
    meta: Meta,
    limits: &Limits,
) -> Result<Looked, FsErr>
    requires { (v : View) → F.view fs.old ≡ Some v → HasLeaf v.now at.now meta limits.now.content }
    ensures told { (v : View) → F.view fs.old ≡ Some v → Finds v.now at.now limits.now.content result }
    ensures node { IfOk result HasNode }
    ensures named { IfErr result OfFinding }
    ensures quiet { IsQuiet (F.clock fs.old) (F.clock fs.new) (F.was fs.old) (F.was fs.new) (F.view fs.old) (F.view fs.new) }
    ensures keeps_room { F.spare fs.old ≤ F.spare fs.new }
    ensures cause { HasCause (F.faults fs.old) (F.faults fs.new) result }
{
    if !is_file_mode(meta.mode) {
        return Ok(Looked::OddLeaf);
    }
    let bytes = fs.read(at)?;
    let sum = content_sum(alloc, meta, Body::Regular(bytes))?;
    Ok(Looked::Leaf(sum))
}

fn link_sum(alloc: Global, meta: Meta, target: Text) -> Result<Looked, NoMemory>
    ensures { IfOk result (TellsLink meta target) }
{
    if target.as_slice().is_empty() || !is_link_mode(meta.mode) {
        return Ok(Looked::OddLeaf);
    }
    let sum = content_sum(alloc, meta, Body::Symlink(target))?;
    Ok(Looked::Leaf(sum))
}
