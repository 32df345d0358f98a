//! The command that removes what nothing leads to, as a family.
#![tactic(auto)]

mod family;
mod task;
mod words;

pub use task::PruneTask;
pub use words::PruneWords;
