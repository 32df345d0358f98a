//! A file system, a source and a sink in memory. The file system keeps a record of its changes, so that what a crash at
//! any past moment might have left can be made.
#![tactic(auto)]

mod calls;
mod make;
mod mem_fs;
mod memory;
mod plan;
mod read;
mod sink;
mod source;
mod walk;

pub use mem_fs::MemFs;
pub use memory_record::Choice;
pub use plan::FailAt;
pub use sink::MemSink;
pub use source::MemSource;
