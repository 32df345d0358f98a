//! A file system round another, which remembers what path the last call was about that it refused.
#![tactic(auto)]

mod note;
mod watch;
mod watched;

pub use watch::Watch;
pub use watched::Watched;
