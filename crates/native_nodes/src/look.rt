//! What stands at a text of the machine. No link is followed.
ghost use Rattle.std.specs.Prelude.{◌≡◌, ◌↔◌, IsTrue};
ghost use Rattle.std.specs.Fs.{metadata_mode};
ghost use Rattle.native_nodes.specs.Look.{Shows, IsOneFile};

use crate::Attributes;
use host_files::Fault;
use ost_types::{is_file_mode, is_folder_mode, is_link_mode};
use std::fs;
use std::fs::Metadata;
use std::io::ErrorKind;
use std::os::unix::fs::MetadataExt;
use std::rt::Files;

/// A regular file or a symbolic link.
#[derive(Clone, Copy, Debug, PartialEq, Eq)]
pub struct Leaf {
    pub attributes: Attributes,
    pub is_link: bool,
    /// The number of its bytes.
    pub len: u64,
    pub device: u64,
    pub inode: u64,
}

/// What a look shows.
#[derive(Clone, Copy, Debug, PartialEq, Eq)]
pub enum Look {
    Absent,
    Folder(Attributes),
    Leaf(Leaf),
}

impl Look {
    /// Looks at a text. A FIFO, a socket and a device are a fault.
    pub fn at<R: Files>(rt: &R, text: &str) -> Result<Look, Fault> {
        match fs::symlink_metadata(rt, text) {
            Ok(metadata) => Look::told(&metadata),
            Err(e) if e.kind() == ErrorKind::NotFound => Ok(Look::Absent),
            Err(_) => Err(Fault),
        }
    }

    // What the machine tells of a node.
    fn told(metadata: &Metadata) -> Result<Look, Fault>
        ensures { Shows (metadata_mode metadata.now) result }
    {
        let attributes = Attributes::told(metadata);
        if is_folder_mode(attributes.mode) {
            return Ok(Look::Folder(attributes));
        }
        let is_link = is_link_mode(attributes.mode);
        if !is_link && !is_file_mode(attributes.mode) {
            return Err(Fault);
        }
        Ok(Look::Leaf(Leaf {
            attributes,
            is_link,
            len: metadata.len(),
            device: metadata.dev(),
            inode: metadata.ino(),
        }))
    }
}

impl Leaf {
    /// Whether both are the same regular file.
    pub fn is_one_file(self, other: Leaf) -> bool
        ensures { IsTrue result ↔ IsOneFile self other }
    {
        !self.is_link && !other.is_link && self.device == other.device && self.inode == other.inode
    }
}
