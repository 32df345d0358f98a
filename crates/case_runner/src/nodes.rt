//! What stands on a disk.
use crate::disk::filled;
use crate::say::say_other;
use crate::stop::Stop;
use fs_trait::{Fs, Node};
use ost_forms::{BodySpec, TreeItem};
use ost_types::{Bytes, FsPath, Meta, Xattrs};
use std::alloc::Global;

/// Whether the disk has all the nodes.
pub fn check_nodes<F: Fs>(alloc: Global, fs: &mut F, nodes: &[TreeItem]) -> Result<(), Stop> {
    for node in nodes {
        if !has_node(alloc, fs, node)? {
            return Err(Stop::Differs(say_other(alloc, "another node stands at", &node.path)?));
        }
    }
    Ok(())
}

pub fn stands_at<F: Fs>(fs: &mut F, at: &FsPath) -> Result<bool, Stop> {
    Ok(fs.stat(at)?.is_some())
}

/// Whether these are the names in the folder.
pub fn lists<F: Fs>(fs: &mut F, at: &FsPath, names: &[Bytes]) -> Result<bool, Stop> {
    let found = fs.list(at)?;
    let found = found.as_slice();
    if found.len() != names.len() {
        return Ok(false);
    }
    Ok(
        found
            .iter()
            .zip(names)
            .all(|(name, wanted)| name.as_slice() == wanted.as_slice()),
    )
}

fn has_node<F: Fs>(alloc: Global, fs: &mut F, node: &TreeItem) -> Result<bool, Stop> {
    match fs.stat(&node.path)? {
        None => Ok(false),
        Some(Node::Folder(meta)) => Ok(node.body.is_none() && is_meta(&meta, &node.meta)),
        Some(Node::File { meta, .. }) => {
            Ok(is_meta(&meta, &node.meta) && has_bytes(alloc, fs, node)?)
        }
        Some(Node::Link { meta, target, .. }) => match &node.body {
            Some(BodySpec::Target(wanted)) => {
                Ok(is_meta(&meta, &node.meta) && target.as_slice() == wanted.as_slice())
            }
            _ => Ok(false),
        },
    }
}

fn is_meta(found: &Meta, wanted: &Meta) -> bool {
    found.uid == wanted.uid
        && found.gid == wanted.gid
        && found.mode == wanted.mode
        && are_xattrs(&found.xattrs, &wanted.xattrs)
}

fn are_xattrs(found: &Xattrs, wanted: &Xattrs) -> bool {
    let found = found.as_slice();
    let wanted = wanted.as_slice();
    found.len() == wanted.len()
        && found.iter().zip(wanted).all(|(one, other)| one.name == other.name
            && one.value == other.value)
}

fn has_bytes<F: Fs>(alloc: Global, fs: &mut F, node: &TreeItem) -> Result<bool, Stop> {
    match &node.body {
        Some(BodySpec::Given(bytes)) => Ok(fs.read(&node.path)?.as_slice() == bytes.as_slice()),
        Some(BodySpec::Fill { len, byte }) => {
            let bytes = filled(alloc, *len, *byte)?;
            Ok(fs.read(&node.path)?.as_slice() == bytes.as_slice())
        }
        _ => Ok(false),
    }
}
