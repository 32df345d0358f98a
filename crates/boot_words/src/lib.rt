//! The texts that lead from a boot entry to its deployment: the word of an entry that names a link, and what the link holds (OSTree
//! manual, "Deployments").
#![tactic(auto)]

mod laws;
mod number;
mod numbered;
mod parts;
mod split;
mod target;
mod word;

pub use laws::texts_are_read_once;
pub use target::read_deploy_target;
pub use word::{NamedLink, read_named_link};
