//! A file system round another that counts its calls for whoever looks on, and the most calls that a step makes.
#![tactic(auto)]

mod call;
mod calls;
mod counted;
mod most;
mod tally;

pub use call::Call;
pub use calls::Calls;
pub use counted::Counted;
pub use most::Most;
pub use tally::Tally;
