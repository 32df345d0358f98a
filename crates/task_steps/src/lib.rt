//! The tasks of a repository and of deployments, each stepped over a disk whose calls are counted.
#![tactic(auto)]

mod bench;
mod deployments;
mod disk;
mod edits;
mod files;
mod prunes;
mod puts;
mod refs;
mod report;
mod stop;
mod swaps;
mod tasks;
mod trees;
mod work;

pub use report::Report;
pub use stop::Stop;
pub use tasks::step_tasks;
