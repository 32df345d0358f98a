ghost use Rattle.std.specs.Prelude.{true, false, ◌≡◌, ◌<◌, ◌≤◌, ℕ, length, min, Some, None, IfOk, IfErr};
ghost use Rattle.fs_trait.specs.View.{View};
ghost use Rattle.rely_guarantee.specs.Headline.{Headline};
ghost use Rattle.rely_guarantee.specs.State.{first};
ghost use Rattle.ref_book.specs.Tracks.{Tracks};
ghost use Rattle.command.specs.Tasks.{task_spec};
ghost use Rattle.lane_system.specs.declared.ask.Ask.TheVariants as Ask;
ghost use Rattle.lane_system.specs.declared.lane.Lane.{Lane};
ghost use Rattle.lane_system.specs.declared.lane.Reply.{Reply};
ghost use Rattle.lane_system.specs.Booked.{Acted, AnswerTells, HasCommand, IsLater, IsReplied, commands_of};
ghost use Rattle.lane_system.specs.Booting.{BootsStill};
ghost use Rattle.lane_system.specs.Causes.{AreCausedIn};
ghost use Rattle.lane_system.specs.Counts.{Objects};
ghost use Rattle.durable_list.specs.Standing.{ids_of};
ghost use Rattle.lane_system.specs.Family.{family, fs_spec};
ghost use Rattle.lane_system.specs.Held.{Held};
ghost use Rattle.lane_system.specs.Kept.{AreIdle};
ghost use Rattle.lane_system.specs.Lanes.{IsTo};
ghost use Rattle.lane_system.specs.Preserves.{Preserves, Stands};
ghost use Rattle.lane_system.specs.Ranks.{AreWithin, Asks, HasEnded, IsHeldOff, IsOver, LacksRefLock, Ranked, left_in_all, rank};
ghost use Rattle.lane_system.specs.Replies.{EndsBy};
ghost use Rattle.lane_system.specs.Sweeping.{IsAllTold};

use crate::Ask;
use crate::act::{Came, lane_act, number_of};
use crate::lane::{Lane, Reply};
use crate::opening::known_at_opening;
use boot_model::DepId;
use command::Command;
use fs_watch::Watch;
use ost_types::{Limits, NoMemory};
use ref_book::RefBook;
use rely_guarantee::{Base, Entry, Pending, Start, certify};
use std::alloc::Global;
use std::marker::Model;
use sys_open::{Opened, OpenedParts};

/// A repository on a file system, and the lanes of commands that work on it, which are of one family. At most one step of one lane is
/// taken at a time, by `act`.
///
/// Each value keeps, for any file system that tells its view: a crash at any moment since the opening's first barrier leaves a sane disk
/// whose refs are those after a prefix of the stored history that has each change acknowledged by then. So what a crash left
/// opens again with these refs: `adopt` tells no damage of a sane disk, and begins with the refs that it has.
#[derive(Drop)]
pub struct System<F: Watch, C: Command> {
    alloc: Global,
    base: Base<F>,
    refs: RefBook,
    lanes: Vec<Lane<C, C::Words, C::Answer>>,
    given: u32,
    limits: Limits,
    // how many objects are in the store
    objects: u32,
}

impl<F: Watch, C: Command> Model for System<F, C> {
    ghost use Rattle.command.specs.Tasks.{task_spec};
    ghost use Rattle.lane_system.specs.Family.{family, fs_spec};
    ghost use Rattle.lane_system.specs.Kept.{Kept};
    ghost use Rattle.lane_system.specs.System.{System};

    ghost Value = { System F C C.Words C.Answer };

    ghost view = { λ s. record { base = s.base; lanes = s.lanes.items; limits = s.limits; objects = s.objects } };

    ghost invariant = { λ s. Kept (fs_spec F.view F.clock F.spare F.was F.faults F.refused) (family (task_spec C.kind_of C.writes_of C.stepped C.leaves C.refuses C.facts) C.means C.doing) s.limits s.base s.refs s.lanes.items s.given };
}

/// What a system is taken apart into.
#[derive(Drop)]
pub struct Parts<F, T, W, A> {
    pub fs: F,
    pub history: Vec<Entry>,
    pub pending: Option<Pending>,
    pub lanes: Vec<Lane<T, W, A>>,
}

impl<F: Watch, C: Command> System<F, C> {
    /// A system of these lanes on a repository that was opened. Where memory is wanting the repository comes back.
    pub fn new(
        alloc: Global,
        opened: Opened<F>,
        lanes: Vec<Lane<C, C::Words, C::Answer>>,
    ) -> Result<System<F, C>, (Opened<F>, NoMemory)>
        requires few { length lanes.items ≤ 8 }
        requires idle { AreIdle C.means opened.limits lanes.items }
        ensures parts { IfOk result (λ s. (s.base.fs ≡ opened.fs) × (s.base.books.start.refs.items ≡ opened.refs) × (s.base.books.opened ≡ opened.clock) × (s.lanes ≡ lanes.items)) }
        ensures deployments { IfOk result (λ s. s.base.books.start.deployments.items ≡ ids_of opened.rows) }
        ensures boots { IfOk result (λ s. (v : View) → F.view s.base.fs ≡ Some v → BootsStill (fs_spec F.view F.clock F.spare F.was F.faults F.refused) opened.rows s v) }
        ensures bounds { IfOk result (λ s. (s.limits ≡ opened.limits) × (s.objects ≡ min (length opened.objects) 4294967295)) }
        ensures caused { IfOk result (λ s. AreCausedIn (F.faults opened.fs) (F.faults s.base.fs) s.base.books.halted s.lanes) }
        ensures stands { IfOk result (λ s. (v : View) → F.view s.base.fs ≡ Some v → Stands (fs_spec F.view F.clock F.spare F.was F.faults F.refused) (family (task_spec C.kind_of C.writes_of C.stepped C.leaves C.refuses C.facts) C.means C.doing) (F.faults opened.fs) v s v) }
        ensures back { IfErr result (λ e. e.0 ≡ opened) }
    {
        match known_at_opening(alloc, &opened) {
            Ok((refs, deployments)) => Ok(System::begun(alloc, opened, refs, deployments, lanes)),
            Err(NoMemory) => Err((opened, NoMemory)),
        }
    }

    fn begun(
        alloc: Global,
        opened: Opened<F>,
        refs: RefBook,
        deployments: Vec<DepId>,
        lanes: Vec<Lane<C, C::Words, C::Answer>>,
    ) -> System<F, C>
        requires few { length lanes.items ≤ 8 }
        requires refs { Tracks refs (first opened.refs) }
        requires rows { deployments.items ≡ ids_of opened.rows }
        requires idle { AreIdle C.means opened.limits lanes.items }
        ensures parts { (result.base.fs ≡ opened.fs) × (result.base.books.start.refs.items ≡ opened.refs) × (result.base.books.opened ≡ opened.clock) × (result.lanes ≡ lanes.items) }
        ensures deployments { result.base.books.start.deployments ≡ deployments }
        ensures boots { (v : View) → F.view result.base.fs ≡ Some v → BootsStill (fs_spec F.view F.clock F.spare F.was F.faults F.refused) opened.rows result v }
        ensures bounds { (result.limits ≡ opened.limits) × (result.objects ≡ min (length opened.objects) 4294967295) }
        ensures caused { AreCausedIn (F.faults opened.fs) (F.faults result.base.fs) result.base.books.halted result.lanes }
        ensures stands { (v : View) → F.view result.base.fs ≡ Some v → Stands (fs_spec F.view F.clock F.spare F.was F.faults F.refused) (family (task_spec C.kind_of C.writes_of C.stepped C.leaves C.refuses C.facts) C.means C.doing) (F.faults opened.fs) v result v }
    {
        let OpenedParts {
            fs,
            refs: named,
            clock,
            faults: _,
            limits,
            objects,
            rows: _,
            checkouts: _,
        } = opened.into_parts();
        let start = Start {
            refs: named,
            deployments,
        };
        System {
            alloc,
            base: Base::new(alloc, fs, clock, start),
            refs,
            lanes,
            given: 0,
            limits,
            objects: count_of(objects.len()),
        }
    }

    /// The next step of an actor. The actor of a lane has its number.
    pub fn act(&mut self, actor: u8) -> Ask
        ensures acted { Acted (AnswerTells C.means F.view (F.faults self.old.base.fs) (F.faults self.new.base.fs) self.old) self.old self.new actor result }
        ensures objects { Objects C.doing F.view self.old self.new actor result }
        ensures preserves { Preserves (fs_spec F.view F.clock F.spare F.was F.faults F.refused) (family (task_spec C.kind_of C.writes_of C.stepped C.leaves C.refuses C.facts) C.means C.doing) self.old self.new }
        ensures ranks { Ranked C.doing self.old self.new actor result }
        ensures held { result ≡ Ask.Blocked → IsHeldOff self.old actor }
        ensures waits { HasCommand self.old actor → self.old.base.books.halted ≡ None → Asks (family (task_spec C.kind_of C.writes_of C.stepped C.leaves C.refuses C.facts) C.means C.doing) self.old actor → LacksRefLock self.old actor → result ≡ Ask.Blocked }
    {
        let number = actor as usize;
        if number >= self.lanes.len() {
            return Ask::Ended;
        }
        let lane = &mut self.lanes[number];
        let command = lane.replies.len();
        if command >= lane.words.len() {
            return Ask::Ended;
        }
        match lane_act(
            self.alloc,
            &mut self.base,
            &mut self.refs,
            &mut self.objects,
            self.limits,
            actor,
            lane,
        ) {
            Came::Blocked => Ask::Blocked,
            Came::More => Ask::More,
            Came::Answered { answer, start } => {
                lane.replies.push_reserved(Reply {
                    answer,
                    start: number_of(start),
                    place: number_of(self.base.books.history.len()),
                    order: self.given,
                    taken: None,
                });
                self.given += 1;
                Ask::Done {
                    lane: actor,
                    command: number_of(command),
                }
            }
        }
    }

    /// How many acts the next command of this lane may still need at most: none where the lane has no more commands, or there is
    /// no such lane.
    pub fn rank(&self, actor: u8) -> u128
        ensures { result ≡ rank C.doing self.now actor }
    {
        let Some(lane) = self.lanes.get(actor as usize) else {
            return 0;
        };
        if lane.replies.len() >= lane.words.len() {
            return 0;
        }
        match &lane.task {
            None => u128::MAX,
            Some(running) => running.work.left(),
        }
    }

    /// The changes that last, in the order in which they came.
    pub fn history(&self) -> &[Entry]
        ensures { result.now ≡ self.now.base.books.history.items }
    {
        &self.base.books.history
    }

    /// The change that is published, or may be, and doesn't last yet.
    pub fn pending(&self) -> &Option<Pending>
        ensures { result.now ≡ self.now.base.books.pending }
    {
        &self.base.books.pending
    }

    /// The lanes, with their replies so far.
    pub fn lanes(&self) -> &[Lane<C, C::Words, C::Answer>]
        ensures lanes { result.now ≡ self.now.lanes }
        ensures few { length result.now ≤ 8 }
    {
        &self.lanes
    }

    /// A crash at any moment since the opening left a sane disk whose refs are those after a prefix of the stored history
    /// that has each change acknowledged by that moment; and reads see the refs after the history, but for a change that
    /// is pending. Each reply says what the states at its start and at its place show. What a command that runs has stored or found is
    /// pinned for its lane, and there. Once all commands were answered, and none was cut short, the history tells all that was removed.
    pub fn certify(&self)
        ensures headline { (v : View) → F.view self.now.base.fs ≡ Some v → Headline F.clock F.was self.now.base v }
        ensures replied { IsReplied F.view C.means self.now }
        ensures within { AreWithin self.now }
        ensures held { Held F.view (family (task_spec C.kind_of C.writes_of C.stepped C.leaves C.refuses C.facts) C.means C.doing) self.now }
        ensures ends { (lane number : ℕ) (r : Reply C.Answer) → IsTo self.now.lanes lane number r → EndsBy self.now.base.books.halted (F.refused self.now.base.fs) (F.faults self.now.base.fs) r.answer }
        ensures swept { IsAllTold F.view self.now }
    {
        certify(&self.base);
    }

    /// Acts once for each actor of the schedule, and then, round after round, until every lane has ended: each of their commands
    /// has its reply.
    pub fn drive(&mut self, schedule: &[u8])
        ensures replied { IsReplied F.view C.means self.new }
        ensures headline { (v : View) → F.view self.new.base.fs ≡ Some v → Headline F.clock F.was self.new.base v }
        ensures ended { HasEnded self.new }
        ensures commands { commands_of self.new ≡ commands_of self.old }
        ensures later { IsLater self.old self.new }
        ensures preserves { Preserves (fs_spec F.view F.clock F.spare F.was F.faults F.refused) (family (task_spec C.kind_of C.writes_of C.stepped C.leaves C.refuses C.facts) C.means C.doing) self.old self.new }
    {
        for actor in schedule {
            let _ = self.act(*actor);
        }
        'rounds: while self.round() {}
        self.certify();
    }

    /// One act of each lane, in rising order. Whether any lane had a command to act for.
    fn round(&mut self) -> bool
        ensures over { result ≡ false → IsOver self.new }
        ensures falls { result ≡ true → left_in_all C.doing self.new < left_in_all C.doing self.old }
        ensures commands { commands_of self.new ≡ commands_of self.old }
        ensures later { IsLater self.old self.new }
        ensures preserves { Preserves (fs_spec F.view F.clock F.spare F.was F.faults F.refused) (family (task_spec C.kind_of C.writes_of C.stepped C.leaves C.refuses C.facts) C.means C.doing) self.old self.new }
    {
        let _few = self.lanes();
        let mut unfinished = false;
        'lanes: for lane in 0..8 {
            match self.act(lane) {
                Ask::Ended => {}
                _ => unfinished = true,
            }
        }
        unfinished
    }

    pub fn into_parts(self) -> Parts<F, C, C::Words, C::Answer>
        ensures parts { (result.fs ≡ self.base.fs) × (result.history ≡ self.base.books.history) × (result.pending ≡ self.base.books.pending) × (result.lanes.items ≡ self.lanes) }
        ensures headline { (v : View) → F.view self.base.fs ≡ Some v → Headline F.clock F.was self.base v }
        ensures replied { IsReplied F.view C.means self }
        ensures held { Held F.view (family (task_spec C.kind_of C.writes_of C.stepped C.leaves C.refuses C.facts) C.means C.doing) self }
    {
        self.certify();
        let System {
            alloc: _,
            base,
            refs: _,
            lanes,
            given: _,
            limits: _,
            objects: _,
        } = self;
        let Base { fs, books } = base;
        let history = books.history;
        let pending = books.pending;
        Parts {
            fs,
            history,
            pending,
            lanes,
        }
    }
}

/// As many as that, as far as 32 bits go.
fn count_of(length: usize) -> u32
    ensures { result ≡ min length 4294967295 }
{
    if length > 4_294_967_295 {
        u32::MAX
    } else {
        length as u32
    }
}
