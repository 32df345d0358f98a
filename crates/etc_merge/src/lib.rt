//! The merge of `/etc`: what an upgrade leaves of the files that an administrator changed (OSTree manual, "Deployments").
#![tactic(auto)]

mod conflicts;
mod entries;
mod fault;
mod kept;
mod merging;
mod next;
mod same;
mod step;

pub use conflicts::conflict;
pub use fault::MergeFault;
pub use merging::merge;
pub use same::is_same;
