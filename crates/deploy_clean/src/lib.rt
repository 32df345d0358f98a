//! Deployments that no list names, and their origin files, removed a step at a time (OSTree manual, "Deployments").
#![tactic(auto)]

mod list;
mod named;
mod paths;
mod phase;
mod stateroot;
mod task;

pub use named::is_unlisted_name;
pub use paths::{deployed_path, deployments_path};
pub use task::CleanTask;
