//! The swap of what boots: the boot entries and links of a new list of deployments are made where nothing that boots now is, and take
//! the place of those of the old list in one call (OSTree manual, "Deployments"; Boot Loader Specification).
#![tactic(auto)]

mod laws;
mod phase;
mod ready;
mod run;
mod task;

pub use laws::leaves_a_list;
pub use run::swap;
pub use task::SwapTask;
