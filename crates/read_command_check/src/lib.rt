//! Commands that read a commit, run alone to their ends.
#![tactic(auto)]

mod run;

pub use run::run_alone;

#[cfg(test)]
mod tests;
