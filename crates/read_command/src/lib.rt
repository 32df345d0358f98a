//! The commands that read a commit, as tasks of the system.
#![tactic(auto)]

mod answer;
mod body;
mod cat;
mod command;
mod commits;
mod entry;
mod laws;
mod log;
mod look;
mod ls;
mod rows;

pub use answer::ReadAnswer;
pub use cat::{Cat, Place};
pub use command::ReadCommand;
pub use commits::{look_up, pin_wants, sum_of_commit};
pub use laws::{answers_of_reads, lanes_that_read, steps_of_reads_fall};
pub use log::Log;
pub use look::{Ask, Look};
pub use ls::Ls;
