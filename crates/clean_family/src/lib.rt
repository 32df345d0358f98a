//! The command that removes deployments that the list doesn't name, as a family.
#![tactic(auto)]

mod family;
mod task;
mod words;

pub use task::CleansTask;
pub use words::CleanWords;
