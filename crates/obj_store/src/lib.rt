//! The objects of a repository: looking one up, and adding one in steps.
#![tactic(auto)]

mod fault;
mod listing;
mod lookup;
mod phase;
mod source;
mod task;
mod too_long;

pub use fault::LoadFault;
pub use listing::list_part;
pub use lookup::{has, load, open_object};
pub use phase::Put;
pub use task::PutTask;
