//! An opening, and the refs or the fault that it tells.
#![tactic(auto)]

mod again;

pub use again::{Found, open_again};

#[cfg(test)]
mod tests;
