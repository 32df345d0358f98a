//! What a deploy does while it alone works on the list of deployments, a step at a time (OSTree manual, "Deployments"): what no list
//! names goes, the new deployment is built aside, and the list with it in front comes to boot.
#![tactic(auto)]

mod deploy;
mod ids;
mod items;
mod laws;
mod phase;
mod refusal;
mod same;
mod task;

pub use deploy::Deploy;
pub use laws::{Writing, deploys_are_kept, deploys_lie, leaves_a_list};
pub use phase::Phase;
pub use refusal::DeployRefusal;
pub use task::DeployTask;
