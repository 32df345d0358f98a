//! A machine's disk in memory that loses what wasn't synced when its power is cut, for tests of a file system over the machine's files.
#![tactic(auto)]

mod change;
mod dir;
mod disk;
mod drive;
mod file;
mod host;
mod inode;
mod loss;
mod paths;

pub use dir::MemoryDir;
pub use disk::Disk;
pub use drive::Drive;
pub use file::MemoryFile;
pub use host::MemoryHost;
pub use loss::Loss;
