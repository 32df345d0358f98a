//! The tests of the texts that no case reaches: two faults, rows of deployments, words of a commit and of a cleanup, and depths of a prune.
#![tactic(auto)]

#[cfg(test)]
mod answers;
