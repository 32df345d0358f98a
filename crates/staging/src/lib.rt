//! A new file at a path of its own: made, filled a piece at a time, and synced. Whoever stages it shows it elsewhere then.
#![tactic(auto)]

mod phase;
mod staging;

pub use phase::Phase;
pub use staging::{Plan, Staging};
