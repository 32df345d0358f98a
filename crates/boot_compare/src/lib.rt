//! Which swap lets a list of deployments boot, found out by one reading call after the other: only the links change where the boot entries
//! that stand there are those of the list (OSTree manual, "Deployments"; Boot Loader Specification, "Type #1 Boot Loader Specification
//! Entries").
#![tactic(auto)]

mod choosing;
mod comparing;
mod reads;
mod texts;

pub use choosing::{ChooseTask, Swap, other};
pub use comparing::{Compared, Comparing};
