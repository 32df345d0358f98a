//! A script's lanes as those of a system, and their replies as the script has them.
ghost use Rattle.std.specs.Prelude.{◌≡◌, ◌≤◌, ℕ, [], length, map, vec_capacity, IfOk, All};
ghost use Rattle.commands.specs.Answers.{reply_of};
ghost use Rattle.commands.specs.Lanes.{HasRoom, IsUnbegun, counts_of, replies_of, words_in};
ghost use Rattle.commands.specs.Words.{words_of};

use crate::answers::reply_of;
use crate::words::words_of;
use crate::{CommandLane, CommandReply};
use ost_types::NoMemory;
use script::{Lane, Reply};
use std::alloc::Global;

/// The lanes of a script, none of whose commands has begun, with room for a reply to each.
pub fn lanes_of(alloc: Global, lanes: Vec<Lane>) -> Result<Vec<CommandLane>, NoMemory>
    requires short { All (λ lane. length lane.commands.items ≤ 64) lanes.items }
    ensures words { IfOk result (λ all. map (λ lane. lane.words.items) all.items ≡ map (λ lane. map words_of lane.commands.items) lanes.items) }
    ensures unbegun { IfOk result (λ all. All IsUnbegun all.items) }
{
    let mut all = Vec::with_capacity(alloc, lanes.len())?;
    for lane in lanes {
        all.push(lane_of(alloc, lane)?)?;
    }
    Ok(all)
}

fn lane_of(alloc: Global, lane: Lane) -> Result<CommandLane, NoMemory>
    requires short { length lane.commands.items ≤ 64 }
    ensures words { IfOk result (λ own. own.words.items ≡ map words_of lane.commands.items) }
    ensures unbegun { IfOk result IsUnbegun }
{
    let Lane { commands } = lane;
    let words = commands
        .into_iter()
        .map(|command| words_of(command))
        .collect(alloc)?;
    CommandLane::new(alloc, words)
}

/// Room for a reply to each command of the lanes.
pub fn reply_room(alloc: Global, lanes: &[CommandLane]) -> Result<Vec<Vec<Reply>>, NoMemory>
    ensures { IfOk result (λ room. HasRoom (counts_of (words_in lanes.now)) room.items) }
{
    let mut room = Vec::with_capacity(alloc, lanes.len())?;
    for lane in lanes {
        room.push(Vec::with_capacity(alloc, lane.words.len())?)?;
    }
    Ok(room)
}

/// The replies of the lanes, each lane's in its room.
pub fn replies_of(lanes: Vec<CommandLane>, room: Vec<Vec<Reply>>) -> Vec<Vec<Reply>>
    requires { HasRoom (map (λ lane. length lane.replies.items) lanes.items) room.items }
    ensures { map (λ row. row.items) result.items ≡ replies_of lanes.items }
{
    let mut rows = room;
    let mut place = 0;
    for lane in lanes {
        let CommandLane {
            words,
            task,
            replies,
        } = lane;
        drop(words);
        drop(task);
        put_replies(replies, &mut rows[place]);
        place += 1;
    }
    rows
}

fn put_replies(replies: Vec<CommandReply>, row: &mut Vec<Reply>)
    requires empty { row.old.items ≡ [] }
    requires room { length replies.items ≤ vec_capacity row.old }
    ensures { row.new.items ≡ map reply_of replies.items }
{
    for reply in replies {
        row.push_reserved(reply_of(reply));
    }
}
