//! The commands on refs, as tasks of the system.
#![tactic(auto)]

mod answer;
mod command;
mod laws;
mod look_up;
mod plan;
mod work;

pub use answer::RefAnswer;
pub use command::RefCommand;
pub use laws::{
    answers_of_commands, lanes_without_a_task, resets_are_founded, steps_fall, told_refusals,
};
pub use look_up::{Found, LookUp};
pub use plan::Plan;
pub use work::RefWork;
