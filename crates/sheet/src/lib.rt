//! Sheets: rows of calls, each row with the answer that is wanted of all its calls.
#![tactic(auto)]

mod answer;
mod bytes;
mod fields;
mod report;
mod run;
mod stop;

pub use answer::{number, text, yes_or_no};
pub use bytes::bytes_of;
pub use fields::Fields;
pub use report::Report;
pub use run::{Bench, run_sheet};
pub use stop::Stop;
