//! A file with the bytes of another one: copied to a path of its own, compared, or put over what stands at a path, each a piece at
//! a time. No file is held whole.
#![tactic(auto)]

mod comparing;
mod copying;
mod pieces;
mod putting;

pub use comparing::{ComparePhase, FileCompare};
pub use copying::{CopyPlan, FileCopy};
pub use putting::{PutCopy, PutPhase};
pub use staging::Phase;
