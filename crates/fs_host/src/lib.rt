//! The current folder of the machine as a file system, and the machine's standard streams as a source and a sink.
#![tactic(auto)]

mod folder;
mod fs;
mod streams;

use folder::CurrentFolder;
pub use fs::HostFs;
pub use streams::{StdSink, StdSource};
