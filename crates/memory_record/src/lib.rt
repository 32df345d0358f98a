//! The record of what changed in a file system: what stands at each path after it, what each file holds, and what a crash
//! leaves.
#![tactic(auto)]

mod change;
mod crash;
mod files;
mod found;
mod listing;
mod past;
mod state;
mod trail;

pub use change::Change;
pub use crash::{Choice, crashed};
pub use files::{bytes_of, meta_of};
pub use found::{Found, root_meta};
pub use past::Past;
