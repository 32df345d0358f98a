//! The list of deployments that a disk boots stays what it is over all writes that spare what it is read from, and each crash leaves it.
//! While another is put in its place, each crash leaves one of both.
#![tactic(auto)]

mod laws;

pub use laws::{lists_are_apart, lists_stand, lists_stay, lists_swap};
