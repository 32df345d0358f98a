//! The deployments that a disk boots stay whole over all writes that spare what they are read from, and each crash leaves them so.
#![tactic(auto)]

mod laws;

pub use laws::{acts_spare_deployments, deployments_are_read, deployments_stand, deployments_stay};
