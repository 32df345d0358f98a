//! Scripts: trees and lanes of commands as a text.
#![tactic(auto)]

mod commands;
mod content;
mod cut;
mod draft;
mod laws;
mod meta;
mod mode;
mod node;
mod nodes;
mod read;
mod step;
mod target;
mod xattrs;

pub use commands::COMMAND_LIMIT;
pub use laws::readings;
pub use read::{SCRIPT_LIMIT, read_script};
pub use script::{
    Answer, Command, CommitLine, Lane, LogRow, LsRow, Reply, Rev, ScriptFault, StatusRow, Written,
    append_bytes, append_field, read_words, write_replies,
};
pub use step::LANE_LIMIT;
