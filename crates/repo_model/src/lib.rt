//! What the objects of a repository are on a disk: its store, its marks, the trees of its commits, and when a commit is whole.
#![tactic(auto)]

mod laws;

pub use laws::{objects_of_disks, stores_that_grow};
