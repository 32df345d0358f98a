//! The second half of a prune: what goes is found beside what was marked, and unlinked, an object a step.
#![tactic(auto)]

mod laws;
mod listing;
mod lost;
mod part;
mod plan;
mod sweep;

pub use laws::{listings_end, sweeps_are_exact};
pub use listing::Listing;
pub use part::Part;
pub use plan::plan_sweep;
pub use sweep::Sweep;
