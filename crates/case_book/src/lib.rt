//! The language of cases: what the program is run on, and what is expected. docs/cases.md defines it.
#![tactic(auto)]

mod block;
mod book;
mod check;
mod draft;
mod fault;
mod fields;
mod keyword;
mod nodes;
mod read;
mod second_name;

pub use book::{
    Asked, Book, Call, Case, Check, Crash, Disk, FailingCalls, Family, NamedText, Outcome, Plan,
    Printed, Range, Removals, Schedules, SecondName, Step, Ways,
};
pub use fault::BookFault;
pub use read::read_book;
