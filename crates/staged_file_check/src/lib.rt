//! Files put over a file system in memory, with each call failing in turn.
#![tactic(auto)]

mod one_file;

pub use one_file::put;

#[cfg(test)]
mod tests;
