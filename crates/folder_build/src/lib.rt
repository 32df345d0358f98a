//! A folder with given nodes in it, or a symbolic link, put in the place of what stands at a path, a step at a time.
#![tactic(auto)]

mod build;
mod link;
mod metas;
mod node;
mod phase;

pub use build::BuildTask;
pub use link::LinkTask;
pub use metas::{file_meta, folder_meta, link_meta};
pub use node::{Content, NewNode};
