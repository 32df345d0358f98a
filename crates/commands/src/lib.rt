//! The commands of the program: the families that they are of, and a script's words and answers as those of its families.
#![tactic(auto)]

mod answers;
mod families;
mod lanes;
mod laws;
mod words;

pub use answers::{answer_of, reply_of};
pub use families::{CommandAnswer, CommandLane, CommandReply, CommandWords, Commands};
pub use lanes::{lanes_of, replies_of, reply_room};
pub use laws::{
    answers_tell_alike, commits_are_alone, outsides_tell_alike, replies_are_those_of_lanes,
};
pub use words::words_of;
