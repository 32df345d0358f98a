//! Commands as words, and what they answer as lines.
#![tactic(auto)]

mod answer;
mod command;
mod escape;
mod fault;
mod field;
mod lines;
mod name;
mod number;
mod path;
mod read;
mod row_lines;
mod rows;
mod value;
mod words;

pub use answer::{Answer, Reply};
pub use command::{Command, CommitLine, Lane, Rev, Written};
pub use escape::{append_bytes, append_field};
pub use fault::ScriptFault;
pub use field::{byte_of, read_field, unescape};
pub use lines::write_replies;
pub use number::{number_of, read_text, read_u32, read_u64};
pub use path::read_path;
pub use rows::{LogRow, LsRow, StatusRow};
pub use words::{read_words, read_written};
