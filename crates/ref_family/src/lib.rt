//! The commands that look a commit up or change a ref, as a family.
#![tactic(auto)]

mod family;
mod task;
mod words;

pub use task::RefsTask;
pub use words::RefWords;
