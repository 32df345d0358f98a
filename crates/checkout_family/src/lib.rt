//! The command that checks a commit out, as a family.
#![tactic(auto)]

mod family;
mod reply;
mod task;
mod words;

pub use reply::CheckoutReply;
pub use task::CheckoutsTask;
pub use words::CheckoutWords;
