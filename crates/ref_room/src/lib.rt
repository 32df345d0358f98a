//! Room for a ref's file: the folders on the way to its path are made, and empty folders at the path are removed, a step at
//! a time; a ref that can't stand beside it is told.
#![tactic(auto)]

mod clearing;
mod folder;
mod name;
mod stands;
mod way;

pub use clearing::Clearing;
pub use folder::{folder_meta, ref_folder};
pub use name::ref_at;
pub use stands::{Stands, look_at};
pub use way::{Leg, Way};
