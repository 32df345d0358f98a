//! One edit of a path in the `etc` of a deployment, a step at a time: a file or a link put there, a folder made, or what stands there removed.
#![tactic(auto)]

mod change;
mod edit;
mod laws;
mod paths;
mod phase;
mod progress;
mod refusal;
mod task;
mod there;
mod verdict;

pub use edit::{Edit, NewLeaf};
pub use laws::{
    edits_begin, edits_lie, edits_outlast, edits_show_old_or_new, refusals_are_told_once,
};
pub use progress::Progress;
pub use refusal::EditRefusal;
pub use task::EditTask;
