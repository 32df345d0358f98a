//! The command that commits a tree, as a family.
#![tactic(auto)]

mod family;
mod task;
mod words;

pub use task::CommitsTask;
pub use words::CommitWords;
