//! `checkout` of a commit, as a task of the system.
#![tactic(auto)]

mod answer;
mod command;
mod laws;
mod look;
mod made;
mod make;
mod placing;
mod read;
mod request;

pub use answer::CheckoutAnswer;
pub use command::CheckoutCommand;
pub use laws::{
    answers_of_checkouts, checkouts_write_no_objects, folders_of_checkouts, lanes_that_check_out,
    steps_of_checkouts_fall,
};
pub use made::Made;
pub use make::Make;
pub use read::Read;
pub use request::Request;
