//! A new file with given bytes at a path: staged at a path of its own, synced, and then shown in one call.
#![tactic(auto)]

mod phase;
mod staged;

pub use phase::Phase;
pub use staged::{Plan, StagedFile};
