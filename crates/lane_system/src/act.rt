//! The next step of a lane's command.
ghost use Rattle.std.specs.Prelude.{◌≡◌, ◌<◌, Some, None, IsSome, length};
ghost use Rattle.fs_trait.specs.declared.types.FsErr.{FsErr};
ghost use Rattle.fs_trait.specs.Effect.{OfNone};
ghost use Rattle.fs_trait.specs.View.{View};
ghost use Rattle.rely_guarantee.specs.declared.kind.Outcome.TheVariants as came;
ghost use Rattle.rely_guarantee.specs.SystemInvariant.{SystemInvariant};
ghost use Rattle.ref_book.specs.Tracks.{Tracks};
ghost use Rattle.command.specs.Staging.{StagingPathFree};
ghost use Rattle.command.specs.Tasks.{task_spec};
ghost use Rattle.lane_system.specs.Family.{family, fs_spec};
ghost use Rattle.lane_system.specs.Kept.{DiskKept, LaneKept};
ghost use Rattle.lane_system.specs.LaneActs.{LaneActs};
ghost use Rattle.lane_system.specs.States.{now_of};
ghost use Rattle.lane_system.specs.Steps.{HasEnded, IsCutShort, IsEndedAs, IsRefusal, IsStray};

use crate::lane::{Lane, Running};
use crate::step::told_act;
use command::{Begun, Command, Ended};
use fs_trait::FsErr;
use fs_watch::Watch;
use ost_types::{FsPath, Limits, NoMemory, TryCopy};
use ref_book::RefBook;
use rely_guarantee::{Base, Halt, Outcome};
use std::alloc::Global;

/// What an act of a lane came to.
pub(crate) enum Came<A> {
    Blocked,
    More,
    /// The command has this answer, and began when the history had so many changes.
    Answered { answer: Ended<A>, start: usize },
}

/// The next step of the lane's command, or its end where no command goes on.
pub(crate) fn lane_act<F: Watch, C: Command>(
    alloc: Global,
    base: &mut Base<F>,
    refs: &mut RefBook,
    objects: &mut u32,
    limits: Limits,
    lane: u8,
    run: &mut Lane<C, C::Words, C::Answer>,
) -> Came<C::Answer>
    requires few { lane < 8 }
    requires sound { SystemInvariant F.view F.clock F.spare F.was base.old }
    requires tracks { Tracks refs.old (now_of base.old.books).refs }
    requires home { (v : View) → F.view base.old.fs ≡ Some v → StagingPathFree lane v }
    requires disk { DiskKept limits (F.view base.old.fs) base.old.books }
    requires kept { LaneKept (fs_spec F.view F.clock F.spare F.was F.faults F.refused) (family (task_spec C.kind_of C.writes_of C.stepped C.leaves C.refuses C.facts) C.means C.doing) limits lane refs.old base.old run.old }
    requires next { length run.old.replies.items < length run.old.words.items }
    ensures { LaneActs (fs_spec F.view F.clock F.spare F.was F.faults F.refused) (family (task_spec C.kind_of C.writes_of C.stepped C.leaves C.refuses C.facts) C.means C.doing) limits lane lane refs.old refs.new objects.old objects.new base.old base.new run.old run.new result }
{
    match base.books.halted {
        Some(why) => halted(base, why, refs, objects, limits, lane, run),
        None => live_act(alloc, base, refs, objects, limits, lane, run),
    }
}

/// The next step of the lane's command, while commands go on.
fn live_act<F: Watch, C: Command>(
    alloc: Global,
    base: &mut Base<F>,
    refs: &mut RefBook,
    objects: &mut u32,
    limits: Limits,
    lane: u8,
    run: &mut Lane<C, C::Words, C::Answer>,
) -> Came<C::Answer>
    requires few { lane < 8 }
    requires sound { SystemInvariant F.view F.clock F.spare F.was base.old }
    requires live { base.old.books.halted ≡ None }
    requires tracks { Tracks refs.old (now_of base.old.books).refs }
    requires home { (v : View) → F.view base.old.fs ≡ Some v → StagingPathFree lane v }
    requires disk { DiskKept limits (F.view base.old.fs) base.old.books }
    requires kept { LaneKept (fs_spec F.view F.clock F.spare F.was F.faults F.refused) (family (task_spec C.kind_of C.writes_of C.stepped C.leaves C.refuses C.facts) C.means C.doing) limits lane refs.old base.old run.old }
    requires next { length run.old.replies.items < length run.old.words.items }
    ensures { LaneActs (fs_spec F.view F.clock F.spare F.was F.faults F.refused) (family (task_spec C.kind_of C.writes_of C.stepped C.leaves C.refuses C.facts) C.means C.doing) limits lane lane refs.old refs.new objects.old objects.new base.old base.new run.old run.new result }
{
    match run.task.take() {
        Some(running) => goes_on(base, refs, objects, limits, lane, run, running),
        None => begins(alloc, base, refs, objects, limits, lane, run),
    }
}

/// The end of a command where no command goes on.
fn halted<F: Watch, C: Command>(
    base: &Base<F>,
    why: Halt,
    _refs: &RefBook,
    _objects: &u32,
    _limits: Limits,
    _lane: u8,
    run: &mut Lane<C, C::Words, C::Answer>,
) -> Came<C::Answer>
    requires over { base.now.books.halted ≡ Some why }
    requires tracks { Tracks _refs.now (now_of base.now.books).refs }
    requires next { length run.old.replies.items < length run.old.words.items }
    ensures { LaneActs (fs_spec F.view F.clock F.spare F.was F.faults F.refused) (family (task_spec C.kind_of C.writes_of C.stepped C.leaves C.refuses C.facts) C.means C.doing) _limits _lane _lane _refs.now _refs.now _objects.now _objects.now base.now base.now run.old run.new result }
{
    let start = match run.task.take() {
        Some(running) => {
            let start = running.start;
            drop(running);
            start
        }
        None => base.books.history.len(),
    };
    Came::Answered {
        answer: cut_short(base, why),
        start,
    }
}

/// The first step of a command. Where another holds it off the command hasn't begun.
fn begins<F: Watch, C: Command>(
    alloc: Global,
    base: &mut Base<F>,
    refs: &mut RefBook,
    objects: &mut u32,
    limits: Limits,
    lane: u8,
    run: &mut Lane<C, C::Words, C::Answer>,
) -> Came<C::Answer>
    requires few { lane < 8 }
    requires sound { SystemInvariant F.view F.clock F.spare F.was base.old }
    requires live { base.old.books.halted ≡ None }
    requires tracks { Tracks refs.old (now_of base.old.books).refs }
    requires home { (v : View) → F.view base.old.fs ≡ Some v → StagingPathFree lane v }
    requires disk { DiskKept limits (F.view base.old.fs) base.old.books }
    requires kept { LaneKept (fs_spec F.view F.clock F.spare F.was F.faults F.refused) (family (task_spec C.kind_of C.writes_of C.stepped C.leaves C.refuses C.facts) C.means C.doing) limits lane refs.old base.old run.old }
    requires next { (length run.old.replies.items < length run.old.words.items) × (run.old.task ≡ None) }
    ensures { LaneActs (fs_spec F.view F.clock F.spare F.was F.faults F.refused) (family (task_spec C.kind_of C.writes_of C.stepped C.leaves C.refuses C.facts) C.means C.doing) limits lane lane refs.old refs.new objects.old objects.new base.old base.new run.old run.new result }
{
    let start = base.books.history.len();
    let number = run.replies.len();
    let words = &run.words[number];
    match C::begin(alloc, refs, limits, lane, base.books.deployments(), words) {
        Err(NoMemory) => Came::Answered {
            answer: Ended::NoMemory,
            start,
        },
        Ok(Begun::Answered(answer)) => Came::Answered {
            answer: Ended::Answered(answer),
            start,
        },
        Ok(Begun::Runs(work)) => {
            let mut work = work;
            match told_act(
                base,
                refs,
                objects,
                limits,
                lane,
                number_of(number),
                &mut work,
            ) {
                Outcome::Blocked => {
                    drop(work);
                    Came::Blocked
                }
                Outcome::More => {
                    drop(run.task.replace(Running { work, start }));
                    Came::More
                }
                outcome => Came::Answered {
                    answer: answer_at_end(base, work, outcome),
                    start,
                },
            }
        }
    }
}

/// A further step of it.
fn goes_on<F: Watch, C: Command>(
    base: &mut Base<F>,
    refs: &mut RefBook,
    objects: &mut u32,
    _limits: Limits,
    lane: u8,
    run: &mut Lane<C, C::Words, C::Answer>,
    running: Running<C>,
) -> Came<C::Answer>
    requires sound { SystemInvariant F.view F.clock F.spare F.was base.old }
    requires live { base.old.books.halted ≡ None }
    requires disk { DiskKept _limits (F.view base.old.fs) base.old.books }
    requires tracks { Tracks refs.old (now_of base.old.books).refs }
    requires kept { LaneKept (fs_spec F.view F.clock F.spare F.was F.faults F.refused) (family (task_spec C.kind_of C.writes_of C.stepped C.leaves C.refuses C.facts) C.means C.doing) _limits lane refs.old base.old (record run.old { task = Some running }) }
    requires next { (length run.old.replies.items < length run.old.words.items) × (run.old.task ≡ None) }
    ensures { LaneActs (fs_spec F.view F.clock F.spare F.was F.faults F.refused) (family (task_spec C.kind_of C.writes_of C.stepped C.leaves C.refuses C.facts) C.means C.doing) _limits lane lane refs.old refs.new objects.old objects.new base.old base.new (record run.old { task = Some running }) run.new result }
{
    let Running { work, start } = running;
    let mut work = work;
    let number = run.replies.len();
    match told_act(
        base,
        refs,
        objects,
        _limits,
        lane,
        number_of(number),
        &mut work,
    ) {
        Outcome::Blocked => {
            drop(run.task.replace(Running { work, start }));
            Came::Blocked
        }
        Outcome::More => {
            drop(run.task.replace(Running { work, start }));
            Came::More
        }
        outcome => Came::Answered {
            answer: answer_at_end(base, work, outcome),
            start,
        },
    }
}

/// What a command answers that has ended.
fn answer_at_end<F: Watch, C: Command>(
    base: &Base<F>,
    work: C,
    outcome: Outcome,
) -> Ended<C::Answer>
    requires ended { HasEnded outcome }
    requires told { outcome ≡ came.Done → IsSome (C.doing.answer work) }
    requires named { (e : FsErr) → outcome ≡ came.Refused e → OfNone e }
    ensures { IsEndedAs C.doing.answer (F.refused base.now.fs) outcome work (F.faults base.now.fs) result }
{
    match outcome {
        Outcome::Done => Ended::Answered(work.into_answer().unwrap()),
        Outcome::Refused(error) => refusal(error),
        Outcome::Halted(why) => cut_short(base, why),
        Outcome::Blocked | Outcome::More => unreachable!(),
    }
}

/// What one answers whose step failed at a call that reads, or wanted for memory.
fn refusal<A: Drop>(error: FsErr) -> Ended<A>
    requires { OfNone error }
    ensures { IsRefusal error result }
{
    match error {
        FsErr::NoMemory => Ended::NoMemory,
        _ => Ended::DiskFault,
    }
}

/// What a command answers where no command goes on.
fn cut_short<F: Watch, A: Drop>(base: &Base<F>, why: Halt) -> Ended<A>
    ensures { IsCutShort why (F.refused base.now.fs) (F.faults base.now.fs) result }
{
    match why {
        Halt::Failed => Ended::Halted(base.fs.faults()),
        Halt::Strayed => stray(base.fs.refused()),
    }
}

/// What one answers where something else than this program changed what stands at this path.
fn stray<A: Drop>(path: &Option<FsPath>) -> Ended<A>
    ensures { IsStray path.now result }
{
    let Some(path) = path else {
        return Ended::NoMemory;
    };
    match path.copy() {
        Ok(path) => Ended::Outside(path),
        Err(NoMemory) => Ended::NoMemory,
    }
}

/// A length as a number of a reply.
pub(crate) fn number_of(length: usize) -> u32
    requires { length < 4294967296 }
    ensures { result ≡ length }
{
    length as u32
}
