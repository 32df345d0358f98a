//! The tree of a commit, read object by object.
#![tactic(auto)]

mod at_file;
mod children;
mod fault;
mod item;
mod looked;
mod objects;
mod remembered;
mod run;
mod task;
mod walking;

pub use at_file::AtFile;
pub use children::children_of;
pub use fault::TreeFault;
pub use item::{Item, Named};
pub use looked::Looked;
pub use objects::{look_at_attributes, look_at_commit, look_at_entries, look_at_object};
pub use run::tree_of;
pub use task::TreeTask;
pub use walking::{TreeWalk, are_short};
