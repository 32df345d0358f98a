//! Schedules: which actor acts how often, one after the other, as a text.
#![tactic(auto)]

mod cut;
mod fault;
mod item;
mod number;
mod read;
mod turns;

pub use fault::ScheduleFault;
pub use number::number_within;
pub use read::read_schedule;
pub use turns::Turns;
