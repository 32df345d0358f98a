//! The command that commits a tree and lets a ref name the commit, as a task of the system.
#![tactic(auto)]

mod answer;
mod begin;
mod command;
mod laws;
mod naming;
mod step;
mod work;

pub use answer::CommitAnswer;
pub use command::CommitCommand;
pub use laws::{
    answers_of_a_commit, commits_that_run, facts_without_the_count, lanes_that_commit,
    objects_that_are_stored, shown_commits_last, steps_of_a_commit_fall, told_refusals_of_a_commit,
};
pub use naming::Naming;
