//! A system of lanes whose commands are no product's: they read and write nothing, and show that the system knows no command by its name.
#![tactic(auto)]

mod family;
mod running;
mod task;
mod words;

pub use running::run_lanes;
pub use task::WaitTask;
pub use words::WaitWords;

#[cfg(test)]
mod act_tests;
#[cfg(test)]
mod ref_tests;
