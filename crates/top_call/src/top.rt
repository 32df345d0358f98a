ghost use Rattle.std.specs.Prelude.{◌≡◌, ◌≢◌, ◌⊎◌, ◌≤◌, ℕ, List, [], Option, Some, None, IfSome, map, nat_lt, true, false};
ghost use Rattle.std.specs.String.{string_bytes};
ghost use Rattle.fs_trait.specs.View.{View, all_synced};
ghost use Rattle.fs_trait.specs.Image.{Told};
ghost use Rattle.fs_trait.specs.Count.{Rose};
ghost use Rattle.sys_open.specs.Changes.{Changes, Works};
ghost use Rattle.sys_open.specs.declared.fault.OpenFault.{OpenFault};
ghost use Rattle.script_reader.specs.Script.{Commands, IsScript};
ghost use Rattle.script.specs.declared.fault.ScriptFault.{ScriptFault};
ghost use Rattle.top_call.specs.Answered.{AnsweredBy};
ghost use Rattle.top_call.specs.Call.{GivesOutput, HasRun, TakesInput, TellsDisk, TellsWords};
ghost use Rattle.top_call.specs.Complete.{AreCausedBy, IsAsked, IsComplete, IsGoodHere};
ghost use Rattle.top_call.specs.Input.{TookFront};
ghost use Rattle.top_call.specs.Words.{AreNoLine, IsEarly, IsLine, IsRefused, Runs};
ghost use Rattle.top_call.specs.Status.{has_risen, status_of};
ghost use Rattle.top_call.specs.Text.{output_of};
ghost use Rattle.top_call.specs.Top.{IsFaultBy, IsStopped, IsUnused, Prints, RanBy, StaysOn, event_of};

use crate::asked::asked_lanes;
use crate::fault::TopFault;
use crate::lanes::{LanesEnd, run_asked};
use crate::output::write_all;
use crate::status::{has_risen, status_of};
use crate::text::{MEMORY_LINE, output_of};
use fs_trait::{Sink, Source};
use fs_watch::Watch;
use ost_types::{Limits, NoMemory};
use rely_guarantee::{Entry, Event, Pending};
use script_reader::Reply;
use std::alloc::Global;
use std::thread::Threads;

/// What a call of the program came to.
#[derive(Drop)]
pub struct Ended<F> {
    /// The exit status.
    pub status: u8,
    /// The file system that was handed in.
    pub fs: F,
    /// Why there are no replies, or why they weren't printed.
    pub fault: Option<TopFault>,
    /// The changes that last, in the order in which they came.
    pub history: Vec<Entry>,
    /// The change that is published, or may be, and doesn't last yet.
    pub pending: Option<Event>,
    /// The replies of each lane.
    pub replies: Vec<Vec<Reply>>,
}

// What came of the lanes, before it is printed.
#[derive(Drop)]
struct Outcome<F> {
    fs: F,
    fault: Option<TopFault>,
    history: Vec<Entry>,
    pending: Option<Event>,
    replies: Vec<Vec<Reply>>,
}

// No lane was run.
fn stopped<F>(alloc: Global, fs: F, fault: TopFault) -> Outcome<F>
    ensures fs { result.fs ≡ fs }
    ensures fault { result.fault ≡ Some fault }
    ensures unused { IsUnused result.history.items result.pending (map (λ lane. lane.items) result.replies.items) }
{
    Outcome {
        fs,
        fault: Some(fault),
        history: Vec::new(alloc),
        pending: None,
        replies: Vec::new(alloc),
    }
}

fn event_of(pending: Option<Pending>) -> Option<Event>
    ensures { result ≡ event_of pending }
{
    match pending {
        Some(
            Pending {
                lane: _,
                command: _,
                event,
            },
        ) => Some(event),
        None => None,
    }
}

fn outcome_of<F: Watch>(parts: LanesEnd<F>) -> Outcome<F>
    ensures fs { result.fs ≡ parts.fs }
    ensures fault { result.fault ≡ None }
    ensures history { result.history.items ≡ parts.history.items }
    ensures pending { result.pending ≡ event_of parts.pending }
    ensures replies { result.replies.items ≡ parts.replies.items }
{
    let LanesEnd {
        fs,
        history,
        pending,
        replies,
    } = parts;
    Outcome {
        fs,
        fault: None,
        history,
        pending: event_of(pending),
        replies,
    }
}

// Reads the words and the script, opens the repository and runs the lanes.
fn run<R: Threads + Sync, F: Watch, S: Source>(
    rt: &R,
    alloc: Global,
    words: &[String],
    fs: F,
    input: &mut S,
) -> Outcome<F>
    ensures early { IfSome result.fault (λ f. IsEarly f → (result.fs ≡ fs) × IsRefused (S.left input.old) (map (λ word. string_bytes word) words.now) (S.faults input.old) (S.faults input.new) f) }
    ensures words { AreNoLine (map (λ word. string_bytes word) words.now) → (result.fault ≡ Some TopFault.Usage) ⊎ (result.fault ≡ Some TopFault.NoMemory) }
    ensures script { (all : List ℕ) (lanes : List Commands) (e : ScriptFault) → S.left input.old ≡ Some all → IsScript all lanes → result.fault ≢ Some (TopFault.Script e) }
    ensures unused { result.fault ≢ None → IsUnused result.history.items result.pending (map (λ lane. lane.items) result.replies.items) }
    ensures asked { (f : OpenFault) → result.fault ≡ Some (TopFault.Open f) → (lanes : List Commands) × IsLine (S.left input.old) (map (λ word. string_bytes word) words.now) lanes }
    ensures by { IfSome result.fault (IsFaultBy (F.faults fs) (F.faults result.fs) (F.refused result.fs)) }
    ensures stop { (v : View) → F.view fs ≡ Some v → IfSome result.fault (IsStopped v.now) }
    ensures still { (v : View) → F.view fs ≡ Some v → IfSome result.fault (λ f. StaysOn f (F.view result.fs ≡ Some (all_synced v))) }
    ensures undone { (v : View) → F.view fs ≡ Some v → IfSome result.fault (λ _. Works (Changes v.now) v (F.clock fs) (F.clock result.fs) (F.was fs) (F.was result.fs) (F.view result.fs)) }
    ensures ran { (v : View) → F.view fs ≡ Some v → result.fault ≡ None → Told (F.view result.fs) (RanBy (S.left input.old) (map (λ word. string_bytes word) words.now) F.view F.clock F.was v (F.clock fs) result.fs result.history.items result.pending (map (λ lane. lane.items) result.replies.items)) }
    ensures answered { result.fault ≡ None → AnsweredBy (S.left input.old) (map (λ word. string_bytes word) words.now) F.view F.faults F.refused result.fs result.history.items result.pending (map (λ lane. lane.items) result.replies.items) }
    ensures caused { AreCausedBy (F.faults fs) (F.faults result.fs) (map (λ lane. lane.items) result.replies.items) }
    ensures read { (all : List ℕ) → S.left input.old ≡ Some all → TookFront all (S.left input.new) }
    ensures unread { ¬ (Runs (map (λ word. string_bytes word) words.now)) → input.new ≡ input.old }
    ensures later { S.faults input.old ≤ S.faults input.new }
    ensures quiet { result.fault ≡ None → S.faults input.new ≡ S.faults input.old }
    ensures failed { (result.fault ≡ Some TopFault.Input) ⊎ (S.faults input.new ≡ S.faults input.old) }
{
    match asked_lanes(alloc, words, input) {
        Ok(asked) => match run_asked(rt, alloc, fs, asked, Limits::standard()) {
            Ok(parts) => outcome_of(parts),
            Err((fs, fault)) => stopped(alloc, fs, fault),
        },
        Err(fault) => stopped(alloc, fs, fault),
    }
}

// Whether there is nothing to print.
fn is_silent(fault: &Option<TopFault>, replies: &[Vec<Reply>]) -> bool
    ensures yes { result ≡ true → (fault.now ≡ None) × (replies.now ≡ []) }
    ensures no { result ≡ false → fault.now ≡ None → replies.now ≢ [] }
{
    match fault {
        Some(_) => false,
        None => replies.is_empty(),
    }
}

// Prints the output. Whether all of it was taken, the sink's count tells.
fn print<K: Sink>(
    alloc: Global,
    out: &mut K,
    fault: Option<TopFault>,
    replies: &[Vec<Reply>],
) -> Option<TopFault>
    ensures fault { (result ≡ fault) ⊎ (result ≡ Some TopFault.NoMemory) }
    ensures silent { fault ≡ None → replies.now ≡ [] → result ≡ None }
    ensures prints { (had : List ℕ) → K.taken out.old ≡ Some had → Prints had (output_of result (map (λ lane. lane.items) replies.now)) (K.faults out.old) (K.faults out.new) (K.taken out.new) }
    ensures later { K.faults out.old ≤ K.faults out.new }
{
    if is_silent(&fault, replies) {
        return None;
    }
    match output_of(alloc, &fault, replies) {
        Ok(text) => {
            let _ = write_all(out, text.as_slice());
            fault
        }
        Err(NoMemory) => {
            let _ = write_all(out, MEMORY_LINE);
            Some(TopFault::NoMemory)
        }
    }
}

/// Does all that the program does: reads the words, and the input where they are `run`, opens the repository, runs the commands,
/// prints their replies or the line of the fault, and tells the exit status.
///
/// The words are those behind the program's name: options, and `init`, `run`, or a command and its fields.
pub fn ostree<R: Threads + Sync, F: Watch, S: Source, K: Sink>(
    rt: &R,
    alloc: Global,
    words: &[String],
    fs: F,
    input: &mut S,
    out: &mut K,
) -> Ended<F>
    // What it tells: of the words, and of the disk.
    ensures words { TellsWords (S.left input.old) (map (λ word. string_bytes word) words.now) (S.faults input.old) (S.faults input.new) fs result.fs result.fault }
    ensures disk { TellsDisk F.view F.clock F.was F.faults F.refused fs result.fs result.fault result.history.items result.pending (map (λ lane. lane.items) result.replies.items) }

    // What a crash may leave, and what is left at the end.
    ensures ran { (v : View) → F.view fs ≡ Some v → HasRun result.fault (map (λ lane. lane.items) result.replies.items) → Told (F.view result.fs) (RanBy (S.left input.old) (map (λ word. string_bytes word) words.now) F.view F.clock F.was v (F.clock fs) result.fs result.history.items result.pending (map (λ lane. lane.items) result.replies.items)) }

    // What is answered, over any file system: each command has its reply, and what ended all is told alike. Where no count of failed calls
    // rose, and the words, the script and the disk are good, every command has an answer of its own, or there was no memory for the call.
    ensures answered { HasRun result.fault (map (λ lane. lane.items) result.replies.items) → AnsweredBy (S.left input.old) (map (λ word. string_bytes word) words.now) F.view F.faults F.refused result.fs result.history.items result.pending (map (λ lane. lane.items) result.replies.items) }
    ensures complete { (v : View) → F.view fs ≡ Some v → IsAsked (S.left input.old) (map (λ word. string_bytes word) words.now) → IsGoodHere v.now → ¬ (Rose (S.faults input.old) (S.faults input.new)) → ¬ (Rose (F.faults fs) (F.faults result.fs)) → ¬ (Rose (K.faults out.old) (K.faults out.new)) → IsComplete result.fault (map (λ lane. lane.items) result.replies.items) result.status }

    // What it takes and prints, and the exit status.
    ensures input { TakesInput S.left S.faults (map (λ word. string_bytes word) words.now) input.old input.new result.fault (map (λ lane. lane.items) result.replies.items) }
    ensures output { GivesOutput K.taken K.faults out.old out.new result.fault (map (λ lane. lane.items) result.replies.items) }
    ensures status { result.status ≡ status_of result.fault (map (λ lane. lane.items) result.replies.items) (nat_lt (S.faults input.old) (S.faults input.new)) (has_risen (F.faults fs) (F.faults result.fs)) (has_risen (K.faults out.old) (K.faults out.new)) }
{
    let source_before = input.faults();
    let disk_before = fs.faults();
    let sink_before = out.faults();
    let Outcome {
        fs,
        fault,
        history,
        pending,
        replies,
    } = run(rt, alloc, words, fs, input);
    let fault = print(alloc, out, fault, &replies);
    let source = source_before < input.faults();
    let disk = has_risen(disk_before, fs.faults());
    let sink = has_risen(sink_before, out.faults());
    Ended {
        status: status_of(&fault, &replies, source, disk, sink),
        fs,
        fault,
        history,
        pending,
        replies,
    }
}
