//! The words of a command line: options, and the fields of a command.
#![tactic(auto)]

mod fault;
mod line;
mod read;
mod split;
mod values;

pub use fault::LineFault;
pub use line::Line;
pub use read::read_words;
