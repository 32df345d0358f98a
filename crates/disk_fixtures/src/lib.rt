//! Disks for tests: the folders of a repository over a file system in memory, and objects that are written as they come.
#![tactic(auto)]

mod attributes;
mod disk;

pub use attributes::{file_meta, folder_meta};
pub use disk::{laid_out, put_bytes, put_named, put_root};
