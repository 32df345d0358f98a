//! The task that commits a tree.
#![tactic(auto)]

mod advance;
mod commit;
mod message;
mod phase;
mod refusal;
mod task;

pub use commit::commit_tree;
pub use message::Message;
pub use refusal::BuildRefusal;
pub use task::CommitTask;
