//! A commit that a system of tasks made stays whole, whatever is done later and whenever a crash comes.
#![tactic(auto)]

mod laws;

pub use laws::commits_last;
