//! The objects that a prune keeps are found and marked, an object a step.
#![tactic(auto)]

mod doomed;
mod fault;
mod flags;
mod laws;
mod links;
mod marking;
mod objects;
mod roots;
mod run;

pub use fault::MarkFault;
pub use laws::markings_last;
pub use marking::Marking;
pub use run::mark;
