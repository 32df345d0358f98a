//! Keyfiles: texts of groups, keys and values, a line each.
#![tactic(auto)]

mod entry;
mod fault;
mod laws;
mod line;
mod names;
mod read;
mod reader;
mod split;
mod write;

pub use entry::KeyLine;
pub use fault::KeyFault;
pub use laws::readings;
pub use read::read_keyfile;
pub use write::write_keyfile;
