//! The refs of a repository: reading one, and changing one in steps.
#![tactic(auto)]

mod lookup;
mod phase;
mod progress;
mod refusal;
mod task;

pub use lookup::{GetRef, get};
pub use progress::Progress;
pub use refusal::RefRefusal;
pub use task::RefTask;
