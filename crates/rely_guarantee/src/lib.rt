//! What a system of running commands keeps on a disk, what each of them may write, and the one act by which all of their
//! tasks go on.
#![tactic(auto)]

mod act;
mod barrier;
mod books;
mod crash;
mod either;
mod event;
mod kind;
mod last;
mod locks;
mod open;
mod work;

pub use act::task_act;
pub use barrier::Barrier;
pub use books::{Base, Books, Claim, Entry, Hold, Pending, Pin, Share, Start, Use, Want};
pub use crash::certify;
pub use either::Either;
pub use event::{DeploymentChange, Event};
pub use kind::{Halt, Outcome, StepKind, Wants};
pub use last::{openings_last, runs_outlast, stores_that_last};
pub(crate) use locks::is_free;
pub use work::CommandTask;
