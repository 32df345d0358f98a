//! The objects of a tree that is to be committed, one at a time, what lies in a folder before the folder; and the commit.
#![tactic(auto)]

mod brief;
mod build;
mod commit;
mod entries;
mod file;
mod folder;
mod laws;
mod order;
mod paths;
mod progress;
mod sums;

pub use brief::{is_brief, is_brief_message};
pub use build::TreeBuild;
pub use commit::commit_object;
pub use laws::tree_is_whole;
pub use order::are_items;
