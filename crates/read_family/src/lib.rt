//! The commands that read a commit, as a family.
#![tactic(auto)]

mod family;
mod reply;
mod task;
mod words;

pub use reply::ReadReply;
pub use task::ReadTask;
pub use words::ReadWords;
