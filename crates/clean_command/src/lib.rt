//! The removal of deployments that the list doesn't name, as a task of the system.
#![tactic(auto)]

mod answer;
mod command;
mod laws;
mod look;
mod phase;

pub use answer::CleanAnswer;
pub use command::CleanCommand;
pub use laws::{
    answers_of_cleanings, cleanings_spare_what_boots, lanes_that_clean, steps_of_cleanings_fall,
};
pub use phase::Phase;
