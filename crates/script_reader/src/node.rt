//! The lines of a tree.
ghost use Rattle.std.specs.Prelude.{◌≡◌, ◌≢◌, map, IfOk, MatchOption};
ghost use Rattle.script.specs.Field.{Gives};
ghost use Rattle.script_reader.specs.Nodes.{IsFile, IsFileAt, IsFolder, IsFolderAt, IsLink, IsLinkAt, IsNode, node_word};

use crate::content::read_content;
use crate::cut::cut;
use crate::meta::{read_link_meta, read_meta};
use crate::target::read_target;
use ost_forms::{BodySpec, TreeItem};
use ost_types::NoMemory;
use script::read_path;
use std::alloc::Global;

/// The node that a line of a tree has.
pub fn read_node(alloc: Global, line: &[u8]) -> Result<Option<TreeItem>, NoMemory>
    ensures { IfOk result (Gives (IsNode line.now)) }
{
    let fields = cut(alloc, line, b' ')?;
    let [keyword, fields @ ..] = fields.as_slice() else {
        return Ok(None);
    };
    match kind_of(keyword) {
        Some(NodeKind::Folder) => read_folder(alloc, fields),
        Some(NodeKind::File) => read_file(alloc, fields),
        Some(NodeKind::Link) => read_link(alloc, fields),
        None => Ok(None),
    }
}

/// What a node is.
#[derive(Clone, Copy, Debug, PartialEq, Eq)]
enum NodeKind {
    Folder,
    File,
    Link,
}

fn kind_of(word: &[u8]) -> Option<NodeKind>
    ensures { MatchOption result ((k : NodeKind) → word.now ≢ node_word k) (λ k. word.now ≡ node_word k) }
{
    match word {
        b"folder" => Some(NodeKind::Folder),
        b"file" => Some(NodeKind::File),
        b"link" => Some(NodeKind::Link),
        _ => None,
    }
}

/// The bits of a folder's type (`S_IFDIR`) and of a regular file's (`S_IFREG`).
const FOLDER_BITS: u32 = 0o040000;

const FILE_BITS: u32 = 0o100000;

fn read_folder(alloc: Global, fields: &[&[u8]]) -> Result<Option<TreeItem>, NoMemory>
    ensures { IfOk result (Gives (IsFolder (map (λ f. f.now) fields.now))) }
{
    match fields {
        [path, user, group, mode, xattrs] => folder_of(alloc, path, user, group, mode, xattrs),
        _ => Ok(None),
    }
}

fn folder_of(
    alloc: Global,
    path: &[u8],
    user: &[u8],
    group: &[u8],
    mode: &[u8],
    xattrs: &[u8],
) -> Result<Option<TreeItem>, NoMemory>
    ensures { IfOk result (Gives (IsFolderAt path.now user.now group.now mode.now xattrs.now)) }
{
    let Some(path) = read_path(alloc, path)? else {
        return Ok(None);
    };
    match read_meta(alloc, FOLDER_BITS, user, group, mode, xattrs)? {
        Some(meta) => Ok(Some(TreeItem {
            path,
            meta,
            body: None,
        })),
        None => Ok(None),
    }
}

fn read_file(alloc: Global, fields: &[&[u8]]) -> Result<Option<TreeItem>, NoMemory>
    ensures { IfOk result (Gives (IsFile (map (λ f. f.now) fields.now))) }
{
    match fields {
        [path, user, group, mode, xattrs, content] => {
            file_of(alloc, path, user, group, mode, xattrs, content)
        }
        _ => Ok(None),
    }
}

fn file_of(
    alloc: Global,
    path: &[u8],
    user: &[u8],
    group: &[u8],
    mode: &[u8],
    xattrs: &[u8],
    content: &[u8],
) -> Result<Option<TreeItem>, NoMemory>
    ensures { IfOk result (Gives (IsFileAt path.now user.now group.now mode.now xattrs.now content.now)) }
{
    let Some(path) = read_path(alloc, path)? else {
        return Ok(None);
    };
    let Some(meta) = read_meta(alloc, FILE_BITS, user, group, mode, xattrs)? else {
        return Ok(None);
    };
    match read_content(alloc, content)? {
        Some(body) => Ok(Some(TreeItem {
            path,
            meta,
            body: Some(body),
        })),
        None => Ok(None),
    }
}

fn read_link(alloc: Global, fields: &[&[u8]]) -> Result<Option<TreeItem>, NoMemory>
    ensures { IfOk result (Gives (IsLink (map (λ f. f.now) fields.now))) }
{
    match fields {
        [path, user, group, xattrs, target] => link_of(alloc, path, user, group, xattrs, target),
        _ => Ok(None),
    }
}

fn link_of(
    alloc: Global,
    path: &[u8],
    user: &[u8],
    group: &[u8],
    xattrs: &[u8],
    target: &[u8],
) -> Result<Option<TreeItem>, NoMemory>
    ensures { IfOk result (Gives (IsLinkAt path.now user.now group.now xattrs.now target.now)) }
{
    let Some(path) = read_path(alloc, path)? else {
        return Ok(None);
    };
    let Some(meta) = read_link_meta(alloc, user, group, xattrs)? else {
        return Ok(None);
    };
    match read_target(alloc, target)? {
        Some(target) => Ok(Some(TreeItem {
            path,
            meta,
            body: Some(BodySpec::Target(target)),
        })),
        None => Ok(None),
    }
}
