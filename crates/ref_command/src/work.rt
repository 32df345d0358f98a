ghost use Rattle.std.specs.Prelude.{◌≡◌, ◌<◌, Some, None, IfOk};
ghost use Rattle.ref_store.specs.declared.phase.Phase.TheVariants as phase;
ghost use Rattle.ref_store.specs.Change.{left};
ghost use Rattle.rely_guarantee.specs.declared.event.Event.{Event};
ghost use Rattle.rely_guarantee.specs.Laws.{step_of, owed_by};
ghost use Rattle.ref_command.specs.Kinds.{kind_at, ref_kind, ref_needs, ref_writes, ref_stepped, ref_leaves, ref_refuses, turn_wants};
ghost use Rattle.ref_command.specs.Facts.{ref_facts};
ghost use Rattle.ref_command.specs.Laws.{ref_laws};

use fs_trait::{Fs, FsErr, StepResult};
use ost_types::{Csum, Name, NoMemory, TryCopy};
use ref_store::{Progress, RefRefusal, RefTask};
use rely_guarantee::{CommandTask, Event, StepKind, Wants};
use repo_layout::RefName;
use std::alloc::Global;

/// The change of a ref, as a task of the system. It takes the ref lock to look at the ref's value, and holds it until the change
/// lasts.
#[derive(Drop, Debug)]
pub struct RefWork {
    task: RefTask,
    answer: Option<Result<(), RefRefusal>>,
}

impl RefWork {
    /// Lets the ref name a commit. It must have the value `seen` so far, None where there is no such ref.
    pub fn set(alloc: Global, lane: u8, name: RefName, seen: Option<Csum>, commit: Csum) -> RefWork
        requires { lane < 16 }
        ensures { result ≡ record { task = record { actor = lane; name = name; seen = seen; value = Some commit; phase = phase.Look }; answer = None } }
    {
        RefWork {
            task: RefTask::set(alloc, lane, name, seen, commit),
            answer: None,
        }
    }

    /// Removes the ref. It must name the commit `seen` so far.
    pub fn remove(alloc: Global, lane: u8, name: RefName, seen: Csum) -> RefWork
        requires { lane < 16 }
        ensures { result ≡ record { task = record { actor = lane; name = name; seen = Some seen; value = None; phase = phase.Look }; answer = None } }
    {
        RefWork {
            task: RefTask::remove(alloc, lane, name, seen),
            answer: None,
        }
    }

    /// What it came to, once it is done.
    pub fn into_answer(self) -> Option<Result<(), RefRefusal>>
        ensures { result ≡ self.answer }
    {
        self.answer
    }

    /// At most so many steps are left.
    pub fn left(&self) -> u128
        ensures { result ≡ left self.now.task }
    {
        self.task.left()
    }
}

fn turn_wants() -> Wants
    ensures { result ≡ turn_wants }
{
    Wants {
        exclusive: false,
        turn: true,
        shared: false,
        sysroot: false,
        hold: None,
        pin: None,
    }
}

fn step_at(progress: Progress) -> StepKind
    ensures { (e : Event) → result ≡ step_of (kind_at progress e) }
{
    match progress {
        Progress::Looking => StepKind::Take(turn_wants()),
        Progress::Preparing | Progress::Ended => StepKind::Quiet,
        Progress::Showing => StepKind::Publish,
        Progress::Settling => StepKind::MakeDurable,
    }
}

fn owed_at(progress: Progress) -> u64
    ensures { (e : Event) → result ≡ owed_by (kind_at progress e) }
{
    match progress {
        Progress::Settling => 1,
        Progress::Looking | Progress::Preparing | Progress::Showing | Progress::Ended => 0,
    }
}

impl CommandTask for RefWork {
    ghost kind_of = { ref_kind };

    ghost needs = { ref_needs };

    ghost writes_of = { ref_writes };

    ghost stepped = { ref_stepped };

    ghost leaves = { ref_leaves };

    ghost refuses = { ref_refuses };

    ghost facts = { ref_facts };

    ghost laws = { ref_laws };

    fn kind(&self) -> StepKind {
        step_at(self.task.progress())
    }

    fn event(&self) -> Result<Event, NoMemory> {
        let name = self.task.name().copy()?;
        let seen = self.task.seen();
        match (self.task.value(), seen) {
            (Some(commit), _) => Ok(Event::SetRef { name, seen, commit }),
            (None, Some(seen)) => Ok(Event::DropRef { name, seen }),
            (None, None) => Err(NoMemory),
        }
    }

    fn claim(&self) -> Result<Name, NoMemory> {
        Err(NoMemory)
    }

    fn owes(&self) -> u64 {
        owed_at(self.task.progress())
    }

    fn advance<F: Fs>(&mut self, _actor: u8, fs: &mut F) -> Result<StepResult<()>, FsErr> {
        match self.task.step(fs) {
            Ok(StepResult::More) => Ok(StepResult::More),
            Ok(StepResult::Done(answer)) => {
                self.answer = Some(answer);
                Ok(StepResult::Done(()))
            }
            Err(e) => Err(e),
        }
    }
}
