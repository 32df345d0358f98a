//! A tree on the disk: checked out of the repository at a path, and what stands at a path removed, each a step at a time.
#![tactic(auto)]

mod checkout;
mod checkout_phase;
mod remove;

pub use checkout::CheckoutTask;
pub use checkout_phase::DestExists;
pub use remove::RemoveTask;
