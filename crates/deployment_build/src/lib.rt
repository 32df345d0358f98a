//! What a new deployment stands on, made a step at a time, aside of what boots it (OSTree manual, "Deployments"): the checkout of its
//! tree, its own `etc`, its origin file, and the copies of its kernel.
#![tactic(auto)]

mod deployment;
mod follows;
mod names;
mod paths;
mod phase;
mod places;
mod task;

pub use deployment::NewDeployment;
pub use paths::{etc_path, origin_path};
pub use phase::BuildPhase;
pub use task::DeploymentBuild;
