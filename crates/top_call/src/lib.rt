//! All that the program does, over any file system, any source and any sink.
#![tactic(auto)]

mod asked;
mod fault;
mod input;
mod lanes;
mod output;
mod status;
mod text;
mod top;
mod why;
mod words;

pub use asked::{Asked, asked_lanes};
pub use fault::TopFault;
pub use lanes::{LanesEnd, run_asked, run_lanes};
pub use output::write_all;
pub use status::{has_risen, status_of};
pub use text::{MEMORY_LINE, USAGE_LINE, output_of};
pub use top::{Ended, ostree};
pub use words::{Request, read_request};
