//! What readers know of a store is known of the part that is reached from their commit.
#![tactic(auto)]

mod laws;

pub use laws::readings_need;
