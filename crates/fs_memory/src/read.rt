ghost use Rattle.std.specs.Prelude.{◌≡◌, None, true, length, IfOk};
ghost use Rattle.fs_trait.specs.Effect.{no_file, no_folder, inode_of, part, one_inode, IsNode, IsListing};
ghost use Rattle.memory_record.specs.Changes.{view_of};
ghost use Rattle.memory_record.specs.Answer.{IsAnswer};

use crate::walk::{file_at, folder_at};
use fs_trait::{FsErr, Node};
use memory_record::{Found, Past, bytes_of, meta_of, root_meta};
use ost_types::{Bytes, FsPath, Meta, Names, NoMemory, TryCopy};
use places::Place;
use std::alloc::Global;

/// The bytes of the file at a path.
pub fn read_at(alloc: Global, past: &Past, at: &FsPath) -> Result<Bytes, FsErr>
    ensures { IsAnswer true (no_file at.now (view_of past.now.changes.items).now) (λ b. b ≡ (view_of past.now.changes.items).now.bytes (inode_of ((view_of past.now.changes.items).now.at at.now))) result }
{
    let place = Place::fill(Vec::new(alloc), at.names())?;
    let inode = file_at(past, at, &place)?;
    Ok(bytes_in(alloc, past, inode)?)
}

fn bytes_in(alloc: Global, past: &Past, inode: u64) -> Result<Bytes, NoMemory>
    ensures { IfOk result (λ b. b ≡ (view_of past.now.changes.items).now.bytes inode) }
{
    match past.file(inode) {
        Some(file) => file.bytes.copy(),
        None => bytes_of(alloc, &past.changes, inode),
    }
}

/// A part of them.
pub fn part_at(alloc: Global, past: &Past, at: &FsPath, from: u64, max: u32) -> Result<Bytes, FsErr>
    ensures { IsAnswer true (no_file at.now (view_of past.now.changes.items).now) (λ b. b ≡ part from max ((view_of past.now.changes.items).now.bytes (inode_of ((view_of past.now.changes.items).now.at at.now)))) result }
{
    let place = Place::fill(Vec::new(alloc), at.names())?;
    let inode = file_at(past, at, &place)?;
    Ok(part_in(alloc, past, inode, from, max)?)
}

fn part_in(alloc: Global, past: &Past, inode: u64, from: u64, max: u32) -> Result<Bytes, NoMemory>
    ensures { IfOk result (λ b. b ≡ part from max ((view_of past.now.changes.items).now.bytes inode)) }
{
    match past.file(inode) {
        Some(file) => Bytes::from_slice(alloc, part_of(file.bytes.as_slice(), from, max)),
        None => {
            let bytes = bytes_of(alloc, &past.changes, inode)?;
            Bytes::from_slice(alloc, part_of(bytes.as_slice(), from, max))
        }
    }
}

fn part_of(bytes: &[u8], from: u64, max: u32) -> &[u8]
    ensures { result.now ≡ part from max bytes.now }
{
    if from < bytes.len() as u64 {
        let rest = &bytes[from as usize..];
        if (max as usize) < rest.len() {
            &rest[..max as usize]
        } else {
            rest
        }
    } else {
        &bytes[bytes.len()..]
    }
}

/// What stands at a path.
pub fn node_at(alloc: Global, past: &Past, at: &FsPath) -> Result<Option<Node>, FsErr>
    ensures { IsAnswer true None (IsNode (view_of past.now.changes.items).now ((view_of past.now.changes.items).now.at at.now)) result }
{
    let place = Place::fill(Vec::new(alloc), at.names())?;
    Ok(match past.value_at(place.text()) {
        Found::Absent => None,
        Found::Root => Some(Node::Folder(root_meta(alloc))),
        Found::Folder(meta) => Some(Node::Folder(meta.copy()?)),
        Found::Link(meta, target) => Some(Node::Link {
            meta: meta.copy()?,
            target: target.copy()?,
        }),
        Found::File(inode) => Some(Node::File {
            meta: meta_in(alloc, past, inode)?,
            len: len_in(alloc, past, inode)?,
        }),
    })
}

fn meta_in(alloc: Global, past: &Past, inode: u64) -> Result<Meta, NoMemory>
    ensures { IfOk result (λ m. m ≡ (view_of past.now.changes.items).now.meta inode) }
{
    match past.file(inode) {
        Some(file) => file.meta.copy(),
        None => meta_of(alloc, &past.changes, inode),
    }
}

fn len_in(alloc: Global, past: &Past, inode: u64) -> Result<u64, NoMemory>
    ensures { IfOk result (λ n. n ≡ length ((view_of past.now.changes.items).now.bytes inode)) }
{
    match past.file(inode) {
        Some(file) => Ok(file.bytes.as_slice().len() as u64),
        None => Ok(bytes_of(alloc, &past.changes, inode)?.as_slice().len() as u64),
    }
}

/// The names in the folder at a path.
pub fn list_at(alloc: Global, past: &Past, at: &FsPath) -> Result<Names, FsErr>
    ensures { IsAnswer true (no_folder at.now (view_of past.now.changes.items).now) (IsListing (view_of past.now.changes.items).now at.now) result }
{
    let place = Place::fill(Vec::new(alloc), at.names())?;
    folder_at(past, at, &place)?;
    Ok(past.names_in(alloc, &place)?)
}

/// Whether both are files of one inode.
pub fn same_at(alloc: Global, past: &Past, a: &FsPath, b: &FsPath) -> Result<bool, FsErr>
    ensures { IsAnswer true None (λ x. x ≡ one_inode ((view_of past.now.changes.items).now.at a.now) ((view_of past.now.changes.items).now.at b.now)) result }
{
    let first = Place::fill(Vec::new(alloc), a.names())?;
    let second = Place::fill(Vec::new(alloc), b.names())?;
    Ok(
        past.value_at(first.text())
            .is_one_with(&past.value_at(second.text())),
    )
}
