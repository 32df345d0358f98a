//! Whether what stands in a folder is the checkout of a tree, but for the folder's `etc`.
#![tactic(auto)]

mod difference;
mod etc;
mod laws;
mod least;
mod look;
mod names;
mod same;
mod stands;

pub use difference::first_difference;
pub use laws::differences_are_told_once;
