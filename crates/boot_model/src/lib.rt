//! What boots: the members of the list of deployments, the boot entries that tell the boot loader of them, and the links that lead
//! from an entry to its deployment (OSTree manual, "Deployments"; Boot Loader Specification).
#![tactic(auto)]

mod item;
mod lines;
mod targets;

pub use item::{BootItem, DepId, Kernel};
pub use lines::{entry_text, link_number};
pub use targets::{boot_target, deploy_target, loader_target};
