//! The removal of what no ref, no deployment that boots and no pin leads to, as a task of the system.
#![tactic(auto)]

mod answer;
mod command;
mod known;
mod laws;
mod list;
mod marked;
mod phase;
mod sweep;

pub use answer::PruneAnswer;
pub use command::PruneCommand;
pub use known::Known;
pub use marked::Marked;
pub use phase::Phase;
