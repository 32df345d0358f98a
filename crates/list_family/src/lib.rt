//! The commands that list what the state says, as a family: the refs, and the deployments that boot.
#![tactic(auto)]

mod answer;
mod family;
mod status;
mod task;
mod words;

pub use answer::ListAnswer;
pub use task::ListTask;
pub use words::ListWords;
