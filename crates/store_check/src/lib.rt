//! The objects that a repository has, whether they are what their names say, and whether its commits have all their objects.
#![tactic(auto)]

mod commits;
mod extending;
mod extent;
mod fault;
mod finished;
mod folders;
mod found;
mod group;
mod kept;
mod listing;
mod marks;
mod objects;
mod refs;

pub use commits::check_commits;
pub use fault::{CommitsFault, ObjectsFault};
pub use kept::{Kept, SoundObjects};
pub use listing::list_objects;
pub use objects::check_objects;
