use boot_model::DepId;
use ost_types::{Csum, FsPath, Text};

/// A commit of a log.
#[derive(Drop, Debug)]
pub struct LogRow {
    pub commit: Csum,
    /// Seconds since 1970.
    pub time: u64,
    pub subject: Text,
}

/// A path of a tree, and what stands there.
#[derive(Drop, Debug)]
pub enum LsRow {
    Folder {
        uid: u32,
        gid: u32,
        /// The permission bits.
        mode: u32,
        path: FsPath,
    },
    Leaf {
        /// The name of its object.
        file: Csum,
        path: FsPath,
    },
}

/// A deployment that boots.
#[derive(Drop, Debug)]
pub struct StatusRow {
    pub id: DepId,
    /// The least lane that uses it.
    pub lane: Option<u8>,
}
