//! The objects of a commit that is made of a tree are those that are reached from it.
#![tactic(auto)]

mod laws;

pub use laws::{trees_are_held, trees_reach};
