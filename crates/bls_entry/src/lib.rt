//! Boot entries: texts of one boot target each, which a boot loader reads (Boot Loader Specification, "Type #1").
#![tactic(auto)]

mod blank;
mod entry;
mod fault;
mod found;
mod key;
mod laws;
mod number;
mod options;
mod read;
mod setting;
mod split;
mod text;
mod write;

pub use entry::BlsEntry;
pub use fault::BlsFault;
pub use laws::entry_readings;
pub use options::ostree_value;
pub use read::read_entry;
pub use write::{can_be_written, write_entry};
