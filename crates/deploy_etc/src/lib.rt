//! What the `etc` of a new deployment is to be: the defaults of its tree, merged with what was changed in the deployment before it
//! (OSTree manual, "Deployments").
#![tactic(auto)]

mod defaults;
mod laws;
mod merging;
mod parts;

pub use defaults::defaults_of;
pub use laws::{defaults_are_placed, new_etc_can_be_copied};
pub use merging::{MergeSource, new_etc};
