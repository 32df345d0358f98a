//! One step of a command's task.
ghost use Rattle.std.specs.Prelude.{◌≡◌, ◌≤◌, ◌<◌, ◌+◌, ℕ, List, drop, length, slice_index_or};
ghost use Rattle.rely_guarantee.specs.declared.books.Entry.{Entry};
ghost use Rattle.rely_guarantee.specs.declared.event.Event.{Event};
ghost use Rattle.rely_guarantee.specs.declared.kind.Outcome.TheVariants as came;
ghost use Rattle.rely_guarantee.specs.Laws.{Ready, Runs, MakeDurable};
ghost use Rattle.rely_guarantee.specs.State.{SystemState, after, events_of};
ghost use Rattle.ref_book.specs.Tracks.{Tracks, HasEventRoom, HasRoom};
ghost use Rattle.command.specs.Tasks.{task_spec};
ghost use Rattle.lane_system.specs.Family.{fs_spec, learning};
ghost use Rattle.lane_system.specs.Kept.{DiskKept};
ghost use Rattle.lane_system.specs.LaneActs.{told_by};
ghost use Rattle.lane_system.specs.States.{now_of};
ghost use Rattle.lane_system.specs.Steps.{CountsAt, IsCounted, Stepped, standing};

use command::{Command, Told};
use fs_watch::Watch;
use obj_store::Put;
use ost_types::Limits;
use ref_book::RefBook;
use rely_guarantee::{Base, Entry, Outcome, task_act};

/// One step of a command's task, once it was told how many objects are in the store; behind a step that goes on it is told what refs name
/// then, which deployments boot, and what is pinned. One that is held off is left as it was.
pub(crate) fn told_act<F: Watch, C: Command>(
    base: &mut Base<F>,
    refs: &mut RefBook,
    objects: &mut u32,
    _limits: Limits,
    lane: u8,
    number: u32,
    work: &mut C,
) -> Outcome
    requires ready { Ready F.view F.clock F.spare F.was (Runs C.kind_of C.facts lane work.old) base.old }
    requires disk { DiskKept _limits (F.view base.old.fs) base.old.books }
    requires after { (start : SystemState) × (place : SystemState) × (words : C.Words) × C.doing.pursues (record { limits = _limits; start = start; place = place }) words work.old }
    requires tracks { Tracks refs.old (now_of base.old.books).refs }
    requires room { (e : Event) → C.kind_of (told_by C.doing objects.old work.old) ≡ MakeDurable e → HasEventRoom refs.old e }
    ensures step { (t : C) × Stepped (fs_spec F.view F.clock F.spare F.was F.faults F.refused) (learning (task_spec C.kind_of C.writes_of C.stepped C.leaves C.refuses C.facts) C.doing) lane lane number refs.old refs.new result (told_by C.doing objects.old work.old) t base.old base.new × ((result ≡ came.Blocked → ⊥) → work.new ≡ t) }
    ensures back { result ≡ came.Blocked → work.new ≡ work.old }
    ensures counts { CountsAt C.doing (standing base.old.books.gone base.new.books.gone objects.old) work.new result objects.new }
{
    let former = work.hear(Told { objects: *objects });
    let gone = base.books.gone;
    match running_act(base, refs, lane, number, work) {
        Outcome::Blocked => {
            work.hear(former);
            Outcome::Blocked
        }
        Outcome::More => {
            count_removed(objects, gone, base.books.gone);
            count(objects, work);
            let books = &base.books;
            work.learn(refs, books.deployments(), books.pins());
            Outcome::More
        }
        outcome => {
            count_removed(objects, gone, base.books.gone);
            outcome
        }
    }
}

/// One step of a command's task. A change that lasts from then on is noted among the refs.
fn running_act<F: Watch, C: Command>(
    base: &mut Base<F>,
    refs: &mut RefBook,
    lane: u8,
    number: u32,
    work: &mut C,
) -> Outcome
    requires ready { Ready F.view F.clock F.spare F.was (Runs C.kind_of C.facts lane work.old) base.old }
    requires tracks { Tracks refs.old (now_of base.old.books).refs }
    requires room { (e : Event) → C.kind_of work.old ≡ MakeDurable e → HasEventRoom refs.old e }
    ensures { Stepped (fs_spec F.view F.clock F.spare F.was F.faults F.refused) (task_spec C.kind_of C.writes_of C.stepped C.leaves C.refuses C.facts) lane lane number refs.old refs.new result work.old work.new base.old base.new }
{
    let before = base.books.history.len();
    let outcome = task_act(base, lane, lane, number, work);
    note(&base.books.history, refs, before);
    outcome
}

/// One object less is in the store, where the books tell of one more that was removed.
fn count_removed(objects: &mut u32, before: u64, now: u64)
    ensures { objects.new ≡ standing before now objects.old }
{
    if now > before {
        *objects = objects.saturating_sub(1);
    }
}

/// One more object is in the store, where the task's last step put one there.
fn count<C: Command>(objects: &mut u32, work: &C)
    ensures { IsCounted objects.old (C.doing.met work.now) objects.new }
{
    if let Some((_, Put::Stored)) = work.met() {
        *objects = objects.saturating_add(1);
    }
}

/// A change that was made to last since the history had so many is one of the refs.
fn note(history: &[Entry], refs: &mut RefBook, before: usize)
    requires few { length history.now ≤ before + 1 }
    requires room { (d : Entry) → before < length history.now → HasEventRoom refs.old (slice_index_or history.now before d).event }
    ensures refs { (s : SystemState) → Tracks refs.old s.refs → Tracks refs.new (after (events_of (drop before history.now)) s).refs }
    ensures rooms { (name : List ℕ) → HasRoom refs.old name → HasRoom refs.new name }
{
    if let Some(entry) = history.get(before) {
        refs.change(&entry.event);
    }
}
