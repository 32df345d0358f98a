//! A list of deployments that was written to boot is read back: its rows are those of its members, in their order (OSTree manual,
//! "Deployments"; Boot Loader Specification).
#![tactic(auto)]

mod laws;

pub use laws::{few_words_are_short, rows_tell_items, written_lists_are_read};
