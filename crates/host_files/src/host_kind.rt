//! What stands at a text of the host, without a look into it.
use crate::Fault;
use std::fs;
use std::io::ErrorKind;
use std::rt::Files;

/// What stands at a text of the host.
#[derive(Clone, Copy, Debug, PartialEq, Eq)]
pub enum HostKind {
    Absent,
    Folder,
    /// A file of so many bytes.
    File(u64),
}

impl HostKind {
    /// What stands there. Links are not followed; these, FIFOs, sockets and devices are a fault.
    pub fn of<R: Files>(rt: &R, text: &str) -> Result<HostKind, Fault> {
        match fs::symlink_metadata(rt, text) {
            Ok(metadata) if metadata.is_dir() => Ok(HostKind::Folder),
            Ok(metadata) if metadata.is_file() => Ok(HostKind::File(metadata.len())),
            Err(e) if e.kind() == ErrorKind::NotFound => Ok(HostKind::Absent),
            _ => Err(Fault),
        }
    }
}
