//! The tree of a commit, by what its folders say: of a file it looks only whether it stands.
#![tactic(auto)]

mod laws;
mod leaf;
mod task;

pub use laws::walks_tell_all;
pub use task::WalkTask;
