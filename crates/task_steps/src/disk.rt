//! The disk that tasks are stepped on.
use crate::stop::Stop;
use disk_fixtures::{laid_out, put_named, put_root};
use fs_memory::MemFs;
use ost_types::{Bytes, Csum, Kind};
use std::alloc::Global;

/// A repository with one commit, whose tree has one folder.
#[derive(Drop)]
pub struct Prepared {
    pub disk: MemFs,
    pub commit: Csum,
}

pub fn prepare(alloc: Global) -> Result<Prepared, Stop> {
    let mut disk = laid_out(alloc)?;
    match put_commit(&mut disk, alloc) {
        Ok(commit) => Ok(Prepared { disk, commit }),
        Err(stop) => Err(stop),
    }
}

// A commit of the subject `first` at the second 1,700,000,000, without a parent.
fn put_commit(fs: &mut MemFs, alloc: Global) -> Result<Csum, Stop> {
    let root = put_root(fs, alloc)?;
    let mut bytes = Bytes::from_slice(alloc, b"first\0\0\0")?;
    bytes.append(&[0, 0, 0, 0, 0x65, 0x53, 0xf1, 0])?;
    bytes.append(root.0.bytes())?;
    bytes.append(root.1.bytes())?;
    bytes.append(&[0x30, 0x07, 0x06, 0, 0, 0])?;
    Ok(put_named(fs, alloc, Kind::Commit, bytes.as_slice())?)
}
