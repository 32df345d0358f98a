//! Whether a list of deployments may boot (OSTree manual, "Deployments").
#![tactic(auto)]

mod item;
mod list;

pub use list::may_boot;
