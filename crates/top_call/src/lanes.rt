//! The lanes of a call, on the repository of a file system.
ghost use Rattle.std.specs.Prelude.{◌≡◌, ◌≤◌, ℕ, [], Some, IfOk, IfErr, All, length, map};
ghost use Rattle.fs_trait.specs.View.{View, all_synced};
ghost use Rattle.fs_trait.specs.Image.{Told};
ghost use Rattle.sys_open.specs.Changes.{Changes, Works};
ghost use Rattle.top_call.specs.declared.fault.TopFault.TheVariants as fault;
ghost use Rattle.lane_system.specs.Family.{fs_spec};
ghost use Rattle.lane_system.specs.Kept.{AreIdle};
ghost use Rattle.commands.specs.Family.{means};
ghost use Rattle.commands.specs.Lanes.{HasRoom, IsUnbegun, counts_of, replies_of, words_in};
ghost use Rattle.commands.specs.Words.{words_of};
ghost use Rattle.top_call.specs.Answered.{Answered};
ghost use Rattle.top_call.specs.Complete.{AreCausedBy};
ghost use Rattle.top_call.specs.RanOn.{RanOn};
ghost use Rattle.top_call.specs.Top.{IsFaultBy, IsFaultOf, IsOutsideOf, IsStop, Ran, StaysOn, event_of};
ghost use Rattle.top_call.specs.Words.{IsEarly, commands_of};
ghost use Rattle.script_reader.specs.Script.{command_limit, lane_limit};
ghost use Rattle.script_trees.specs.Fit.{AreFit, IsWide};

use crate::asked::Asked;
use crate::fault::TopFault;
use commands::{
    CommandAnswer, CommandLane, CommandWords, Commands, lanes_of, replies_of, reply_room,
};
use fs_watch::Watch;
use lane_system::{Parts, System};
use ost_types::{FsPath, Limits, NoMemory, TryCopy};
use rely_guarantee::{Entry, Pending};
use schedule::Turns;
use schedule_run::run_by;
use script_reader::{Lane, Reply};
use std::alloc::Global;
use std::thread::Threads;
use sys_open::{OpenFault, Opened, adopt};

/// What lanes leave that ran to their end.
#[derive(Drop)]
pub struct LanesEnd<F> {
    pub fs: F,
    /// The changes that last, in the order in which they came.
    pub history: Vec<Entry>,
    /// The change that is published, or may be, and doesn't last yet.
    pub pending: Option<Pending>,
    /// The replies of each lane.
    pub replies: Vec<Vec<Reply>>,
}

/// Opens the repository, and runs what is asked for. Where no lane is run the file system comes back.
pub fn run_asked<R: Threads + Sync, F: Watch>(
    rt: &R,
    alloc: Global,
    fs: F,
    asked: Asked,
    limits: Limits,
) -> Result<LanesEnd<F>, (F, TopFault)>
    requires wide { IsWide limits }
    requires fit { AreFit (commands_of asked.lanes.items) }
    ensures ran { (v : View) → F.view fs ≡ Some v → IfOk result (λ p. Told (F.view p.fs) (Ran limits F.view F.clock F.was v (F.clock fs) (commands_of asked.lanes.items) p.fs p.history.items (event_of p.pending) (map (λ replies. replies.items) p.replies.items))) }
    ensures told { (v : View) → F.view fs ≡ Some v → IfErr result (λ e. IsStop limits v.now e.1) }
    ensures still { (v : View) → F.view fs ≡ Some v → IfErr result (λ e. StaysOn e.1 (F.view e.0 ≡ Some (all_synced v))) }
    ensures undone { (v : View) → F.view fs ≡ Some v → IfErr result (λ e. Works (Changes v.now) v (F.clock fs) (F.clock e.0) (F.was fs) (F.was e.0) (F.view e.0)) }
    ensures answered { IfOk result (λ p. Answered limits F.view F.faults F.refused (commands_of asked.lanes.items) p.fs p.history.items (event_of p.pending) (map (λ replies. replies.items) p.replies.items)) }
    ensures caused { IfOk result (λ p. AreCausedBy (F.faults fs) (F.faults p.fs) (map (λ replies. replies.items) p.replies.items)) }
    ensures late { IfErr result (λ e. IsEarly e.1 → ⊥) }
    ensures by { IfErr result (λ e. IsFaultBy (F.faults fs) (F.faults e.0) (F.refused e.0) e.1) }
{
    let Asked { lanes, schedule } = asked;
    run_lanes(rt, alloc, fs, lanes, &schedule, limits)
}

/// Opens the repository, and runs all commands of the lanes, as the schedule says and then in turn. Where no lane is run the file system comes back.
pub fn run_lanes<R: Threads + Sync, F: Watch>(
    rt: &R,
    alloc: Global,
    fs: F,
    lanes: Vec<Lane>,
    schedule: &[Turns],
    limits: Limits,
) -> Result<LanesEnd<F>, (F, TopFault)>
    requires wide { IsWide limits }
    requires fit { AreFit (commands_of lanes.items) }
    ensures ran { (v : View) → F.view fs ≡ Some v → IfOk result (λ p. Told (F.view p.fs) (Ran limits F.view F.clock F.was v (F.clock fs) (commands_of lanes.items) p.fs p.history.items (event_of p.pending) (map (λ replies. replies.items) p.replies.items))) }
    ensures told { (v : View) → F.view fs ≡ Some v → IfErr result (λ e. IsStop limits v.now e.1) }
    ensures still { (v : View) → F.view fs ≡ Some v → IfErr result (λ e. StaysOn e.1 (F.view e.0 ≡ Some (all_synced v))) }
    ensures undone { (v : View) → F.view fs ≡ Some v → IfErr result (λ e. Works (Changes v.now) v (F.clock fs) (F.clock e.0) (F.was fs) (F.was e.0) (F.view e.0)) }
    ensures answered { IfOk result (λ p. Answered limits F.view F.faults F.refused (commands_of lanes.items) p.fs p.history.items (event_of p.pending) (map (λ replies. replies.items) p.replies.items)) }
    ensures caused { IfOk result (λ p. AreCausedBy (F.faults fs) (F.faults p.fs) (map (λ replies. replies.items) p.replies.items)) }
    ensures late { IfErr result (λ e. IsEarly e.1 → ⊥) }
    ensures by { IfErr result (λ e. IsFaultBy (F.faults fs) (F.faults e.0) (F.refused e.0) e.1) }
{
    match adopt(rt, alloc, fs, limits) {
        Ok(opened) => run_opened(alloc, opened, lanes, schedule),
        Err((fs, fault)) => {
            let told = fault_of(&fs, fault);
            Err((fs, told))
        }
    }
}

// What is told where the repository isn't opened.
fn fault_of<F: Watch>(fs: &F, fault: OpenFault) -> TopFault
    ensures { IsFaultOf (F.refused fs.now) fault result }
{
    match fault {
        OpenFault::NoMemory => TopFault::NoMemory,
        OpenFault::Disk => TopFault::Open(OpenFault::Disk),
        OpenFault::Damaged(path, why) => TopFault::Open(OpenFault::Damaged(path, why)),
        OpenFault::Outside(path) => outside(fs.refused(), path),
    }
}

// A step of the opening that doesn't know which of its calls was refused names the root: then the call's own path is told.
fn outside(refused: &Option<FsPath>, path: FsPath) -> TopFault
    ensures { IsOutsideOf path refused.now result }
{
    if !path.names().is_empty() {
        return TopFault::Open(OpenFault::Outside(path));
    }
    let Some(refused) = refused else {
        return TopFault::NoMemory;
    };
    match refused.copy() {
        Ok(refused) => TopFault::Open(OpenFault::Outside(refused)),
        Err(NoMemory) => TopFault::NoMemory,
    }
}

// Runs all commands of the lanes on a repository that was opened.
fn run_opened<F: Watch>(
    alloc: Global,
    opened: Opened<F>,
    lanes: Vec<Lane>,
    schedule: &[Turns],
) -> Result<LanesEnd<F>, (F, TopFault)>
    requires few { length lanes.items ≤ lane_limit }
    requires short { All (λ lane. length lane.commands.items ≤ command_limit) lanes.items }
    requires fit { All (λ lane. All (λ c. means.fit opened.limits (words_of c)) lane.commands.items) lanes.items }
    ensures ran { IfOk result (λ p. RanOn (fs_spec F.view F.clock F.spare F.was F.faults F.refused) opened (map (λ lane. map words_of lane.commands.items) lanes.items) p.fs p.history.items p.pending (map (λ replies. replies.items) p.replies.items)) }
    ensures back { IfErr result (λ e. (e.0 ≡ opened.fs) × (e.1 ≡ fault.NoMemory)) }
{
    match prepare(alloc, lanes) {
        Ok(prepared) => run_prepared(alloc, opened, prepared, schedule),
        Err(NoMemory) => Err((opened.into_fs(), TopFault::NoMemory)),
    }
}

// Lanes before their first step, with room for the replies to their commands.
#[derive(Drop)]
struct Prepared {
    lanes: Vec<CommandLane>,
    room: Vec<Vec<Reply>>,
}

fn prepare(alloc: Global, lanes: Vec<Lane>) -> Result<Prepared, NoMemory>
    requires short { All (λ lane. length lane.commands.items ≤ command_limit) lanes.items }
    ensures words { IfOk result (λ p. words_in p.lanes.items ≡ map (λ lane. map words_of lane.commands.items) lanes.items) }
    ensures unbegun { IfOk result (λ p. All IsUnbegun p.lanes.items) }
    ensures room { IfOk result (λ p. HasRoom (counts_of (words_in p.lanes.items)) p.room.items) }
{
    let lanes = lanes_of(alloc, lanes)?;
    let room = reply_room(alloc, &lanes)?;
    Ok(Prepared { lanes, room })
}

fn run_prepared<F: Watch>(
    alloc: Global,
    opened: Opened<F>,
    prepared: Prepared,
    schedule: &[Turns],
) -> Result<LanesEnd<F>, (F, TopFault)>
    requires few { length prepared.lanes.items ≤ lane_limit }
    requires idle { AreIdle means opened.limits prepared.lanes.items }
    requires room { HasRoom (counts_of (words_in prepared.lanes.items)) prepared.room.items }
    ensures ran { IfOk result (λ p. RanOn (fs_spec F.view F.clock F.spare F.was F.faults F.refused) opened (words_in prepared.lanes.items) p.fs p.history.items p.pending (map (λ replies. replies.items) p.replies.items)) }
    ensures back { IfErr result (λ e. (e.0 ≡ opened.fs) × (e.1 ≡ fault.NoMemory)) }
{
    let Prepared { lanes, room } = prepared;
    match System::new(alloc, opened, lanes) {
        Ok(system) => {
            let mut system = system;
            run_by(&mut system, schedule);
            system.certify();
            Ok(end_of(system.into_parts(), room))
        }
        Err((opened, NoMemory)) => Err((opened.into_fs(), TopFault::NoMemory)),
    }
}

// What a system was taken apart into, with the replies as a script has them.
fn end_of<F: Watch>(
    parts: Parts<F, Commands, CommandWords, CommandAnswer>,
    room: Vec<Vec<Reply>>,
) -> LanesEnd<F>
    requires { HasRoom (map (λ lane. length lane.replies.items) parts.lanes.items) room.items }
    ensures same { (result.fs ≡ parts.fs) × (result.history ≡ parts.history) × (result.pending ≡ parts.pending) }
    ensures replies { map (λ row. row.items) result.replies.items ≡ replies_of parts.lanes.items }
{
    let Parts {
        fs,
        history,
        pending,
        lanes,
    } = parts;
    LanesEnd {
        fs,
        history,
        pending,
        replies: replies_of(lanes, room),
    }
}
