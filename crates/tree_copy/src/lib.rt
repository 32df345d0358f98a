//! A tree made on the disk by copies, a step at a time: each regular file is a file of its own, so that it may be changed.
#![tactic(auto)]

mod node;
mod phase;
mod task;

pub use task::{MAX_PATHS, TreeCopy};
