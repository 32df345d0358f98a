//! Disks that cases begin with.
use crate::meddled::Meddled;
use crate::stop::Stop;
use case_book::{Disk, SecondName};
use fs_host::HostFs;
use fs_memory::{Choice, MemFs};
use fs_trait::Fs;
use host_files::{Machine, Syncer};
use ost_forms::{BodySpec, TreeItem};
use ost_types::{FsPath, Meta, Text, is_file_mode, is_folder_mode, is_link_mode};
use std::alloc::Global;

/// A file system that cases are run over.
pub trait CaseDisk: Fs {
    /// What a crash leaves that comes so many changes before the end, by the choice. None where no crash is to be had.
    fn left(&self, back: u64, choice: &Choice) -> Result<Option<MemFs>, Stop>;
}

impl CaseDisk for MemFs {
    fn left(&self, back: u64, choice: &Choice) -> Result<Option<MemFs>, Stop> {
        let moment = self.moments().saturating_sub(back);
        Ok(Some(self.image(moment, choice)?))
    }
}

impl<R: Machine, S: Syncer> CaseDisk for HostFs<R, S> {
    fn left(&self, _back: u64, _choice: &Choice) -> Result<Option<MemFs>, Stop> {
        Ok(None)
    }
}

impl<D: Fs> CaseDisk for Meddled<D> {
    fn left(&self, _back: u64, _choice: &Choice) -> Result<Option<MemFs>, Stop> {
        Ok(None)
    }
}

/// A disk with the same nodes, all of them lasting, with the clock 0 and no call made so far. None where none is to be had.
pub fn copy_of<D: CaseDisk>(alloc: Global, fs: &D) -> Result<Option<MemFs>, Stop> {
    let choice = Choice {
        picks: Vec::new(alloc),
        fill: 0,
    };
    fs.left(0, &choice)
}

/// Adds all that the disk has, and makes it last.
pub fn add_disk<D: CaseDisk>(alloc: Global, fs: &mut D, disk: &Disk) -> Result<(), Stop> {
    add_nodes(alloc, fs, &disk.nodes)?;
    add_names(fs, &disk.names)
}

/// Gives the leaves their second names, and makes them last.
pub fn add_names<D: CaseDisk>(fs: &mut D, names: &[SecondName]) -> Result<(), Stop> {
    for name in names {
        fs.link(&name.first, &name.second)?;
    }
    Ok(fs.sync_all()?)
}

/// Adds the nodes, and makes them last.
pub fn add_nodes<D: CaseDisk>(alloc: Global, fs: &mut D, nodes: &[TreeItem]) -> Result<(), Stop> {
    for node in nodes {
        add_node(alloc, fs, node)?;
    }
    Ok(fs.sync_all()?)
}

fn add_node<D: CaseDisk>(alloc: Global, fs: &mut D, node: &TreeItem) -> Result<(), Stop> {
    match &node.body {
        None => add_folder(fs, &node.path, &node.meta),
        Some(BodySpec::Target(target)) => add_link(fs, &node.path, target, &node.meta),
        Some(BodySpec::Given(bytes)) => add_file(fs, &node.path, bytes.as_slice(), &node.meta),
        Some(BodySpec::Fill { len, byte }) => {
            let bytes = filled(alloc, *len, *byte)?;
            add_file(fs, &node.path, &bytes, &node.meta)
        }
    }
}

/// So many times this byte.
pub fn filled(alloc: Global, len: u64, byte: u8) -> Result<Vec<u8>, Stop> {
    let mut bytes = Vec::new(alloc);
    for _ in 0..len {
        bytes.push(byte)?;
    }
    Ok(bytes)
}

fn add_folder<D: CaseDisk>(fs: &mut D, at: &FsPath, meta: &Meta) -> Result<(), Stop> {
    if !is_folder_mode(meta.mode) {
        return Err(Stop::Mode);
    }
    Ok(fs.mkdir(at, meta)?)
}

fn add_file<D: CaseDisk>(fs: &mut D, at: &FsPath, bytes: &[u8], meta: &Meta) -> Result<(), Stop> {
    if !is_file_mode(meta.mode) {
        return Err(Stop::Mode);
    }
    fs.create(at, meta)?;
    Ok(fs.append(at, bytes)?)
}

fn add_link<D: CaseDisk>(fs: &mut D, at: &FsPath, target: &Text, meta: &Meta) -> Result<(), Stop> {
    if !is_link_mode(meta.mode) || target.as_slice().is_empty() {
        return Err(Stop::Mode);
    }
    Ok(fs.symlink(at, target, meta)?)
}
