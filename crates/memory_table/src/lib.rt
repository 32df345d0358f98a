//! What stands at each path, and what each file holds, in maps.
#![tactic(auto)]

mod filling;
mod folder;
mod parts;
mod table;
mod tree;

pub use filling::spoil;
pub use parts::folder_of;
pub use table::{File, Table};
pub use tree::Tree;
