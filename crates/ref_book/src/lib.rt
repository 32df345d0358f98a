//! The refs as the system knows them: those after the stored history.
#![tactic(auto)]

mod book;

pub use book::RefBook;
