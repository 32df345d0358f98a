//! What a swap of what boots is to make: the folder of boot entries of a list, and the folder of its links (OSTree manual,
//! "Deployments"; Boot Loader Specification).
#![tactic(auto)]

mod entries;
mod links;
mod names;
mod paths;

pub use entries::build_entries;
pub use links::build_links;
pub use paths::{boot_link_stage_path, boot_text, loader_path, loader_stage_path, loader_text};
