//! Which objects of a store are reached from a commit, and which a prune keeps.
#![tactic(auto)]

mod laws;
mod pruning;

pub use laws::{commits_reach, commits_stay, reach_is_least, reach_needs};
pub use pruning::{distances_find, lines_of_commits, marks_find, pruned_is_exact, removed_objects};
