//! The system: lanes of commands over one repository, and the one step that any of them takes at a time. It knows no command by its name.
#![tactic(auto)]

mod act;
mod ask;
mod lane;
mod opening;
mod step;
mod system;
mod unremoved;

pub use ask::Ask;
pub use lane::{Lane, Reply, Running};
pub use system::{Parts, System};
pub use unremoved::{all_is_said, earlier_removals_are_past, nothing_is_gone};
