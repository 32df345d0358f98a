//! What the system has to know of a family of commands, and that two families are one.
#![tactic(auto)]

mod begun;
mod command;
mod either;
mod ended;
mod query;
mod revision;
mod told;

pub use begun::Begun;
pub use command::Command;
pub use ended::Ended;
pub use query::Query;
pub use revision::commit_of;
pub use told::Told;
