//! The list of deployments that a disk boots, read from its boot entries and links, or what is first wrong with it (OSTree manual,
//! "Deployments"; Boot Loader Specification).
#![tactic(auto)]

mod fault;
mod files;
mod laws;
mod links;
mod list;
mod owned;
mod places;
mod reads;
mod row;
mod sorted;
mod texts;
mod versions;
mod words;

pub use fault::{EntryFault, ListFault};
pub use laws::lists_are_read_once;
pub use list::read_list;
pub use reads::{is_entry_name, list_names};
pub use row::BootRow;
pub use texts::ENTRY_LIMIT;
