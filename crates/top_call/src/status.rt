ghost use Rattle.std.specs.Prelude.{◌≡◌, map, if◌then◌else◌};
ghost use Rattle.top_call.specs.Status.{answer_status, fault_status, has_risen, lane_status, replies_status, status_of};

use crate::fault::TopFault;
use script_reader::{Answer, Reply, ScriptFault};
use sys_open::OpenFault;

/// The exit status of a call, from what it came to and from whether the counts of the source, of the file system and of the sink
/// have risen in it: the greatest of those whose cause stands.
#[tactic(auto, unfolding(crate::specs::Status::status_of))]
pub fn status_of(
    fault: &Option<TopFault>,
    lanes: &[Vec<Reply>],
    source: bool,
    disk: bool,
    sink: bool,
) -> u8
    ensures { result ≡ status_of fault.now (map (λ lane. lane.items) lanes.now) source disk sink }
{
    let by_streams = status_where(source, 7).max(status_where(sink, 6));
    let by_counts = by_streams.max(status_where(disk, 4));
    let by_answers = fault_status(fault).max(replies_status(lanes));
    by_counts.max(by_answers)
}

fn status_where(applies: bool, status: u8) -> u8
    ensures { result ≡ (if applies then status else 0) }
{
    if applies { status } else { 0 }
}

/// Whether a count rose from one call to another, or stands at its last value, where it can't rise.
pub fn has_risen(before: u64, now: u64) -> bool
    ensures { result ≡ has_risen before now }
{
    before < now || now == u64::MAX
}

fn fault_status(fault: &Option<TopFault>) -> u8
    ensures { result ≡ fault_status fault.now }
{
    match fault {
        None => 0,
        Some(TopFault::Usage) => 2,
        Some(TopFault::Script(ScriptFault::NoMemory)) => 3,
        Some(TopFault::Script(_)) => 2,
        Some(TopFault::Input) => 7,
        Some(TopFault::NoMemory) => 3,
        Some(TopFault::Open(OpenFault::Outside(_))) => 4,
        Some(TopFault::Open(OpenFault::Disk)) => 0,
        Some(TopFault::Open(OpenFault::NoMemory)) => 3,
        Some(TopFault::Open(OpenFault::Damaged(_, _))) => 8,
    }
}

// the greatest status of a reply
fn replies_status(lanes: &[Vec<Reply>]) -> u8
    ensures { result ≡ replies_status (map (λ lane. lane.items) lanes.now) }
{
    let mut status = 0;
    for replies in lanes {
        status = status.max(lane_status(replies));
    }
    status
}

fn lane_status(replies: &[Reply]) -> u8
    ensures { result ≡ lane_status replies.now }
{
    let mut status = 0;
    for reply in replies {
        status = status.max(answer_status(&reply.answer));
    }
    status
}

fn answer_status(answer: &Answer) -> u8
    ensures { result ≡ answer_status answer.now }
{
    match answer {
        Answer::Nothing
        | Answer::Refs(_)
        | Answer::Status(_)
        | Answer::Commit(_)
        | Answer::Log(_)
        | Answer::Ls(_)
        | Answer::Content(_)
        | Answer::Pruned { .. } => 0,
        Answer::NoRef
        | Answer::NoCommit(_)
        | Answer::Partial(_)
        | Answer::NoPath(_)
        | Answer::NotFile(_)
        | Answer::DestExists(_)
        | Answer::RefMoved { .. }
        | Answer::RefClash(_)
        | Answer::BadTree(_)
        | Answer::TooMany(_) => 1,
        Answer::NoMemory => 3,
        Answer::Outside(_) => 4,
        // the disk's count shows these
        Answer::DiskFault | Answer::Halted(_) => 0,
    }
}
