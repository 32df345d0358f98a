//! What is wrong first with a tree, and trees read over a file system in memory.
#![tactic(auto)]

mod first;

pub use first::{Wrong, first_wrong};

#[cfg(test)]
mod tests;
