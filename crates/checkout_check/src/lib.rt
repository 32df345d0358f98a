//! Trees that are made pair by pair, and checked out over a file system in memory.
#![tactic(auto)]

mod looks;
mod sketch;

pub use sketch::Sketch;

#[cfg(test)]
mod tests;
