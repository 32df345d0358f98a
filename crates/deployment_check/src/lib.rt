//! What an opening asks of a deployment of the list that boots: its files are the checkout of its commit, and the copies of its kernel are
//! the kernel's (OSTree manual, "Deployments").
#![tactic(auto)]

mod check;
mod judgement;
mod laws;
mod paths;
mod tree;

pub use check::judge;
pub use judgement::Judgement;
pub use laws::judgements_are_told_once;
pub use paths::etc_path;
