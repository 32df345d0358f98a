//! The tree of a commit as a folder.
#![tactic(auto)]

mod laws;

pub use laws::trees_of_commits;
