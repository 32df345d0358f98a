ghost use Rattle.rely_guarantee.specs.Barrier.{barrier_kind, barrier_needs, barrier_writes, barrier_stepped, barrier_leaves, barrier_refuses, barrier_facts, barrier_laws};

use crate::{CommandTask, Event, StepKind};
use fs_trait::{Fs, FsErr, StepResult};
use ost_types::{Name, NoMemory};

/// A task of one step, which makes outlast a crash all that is there.
#[derive(Clone, Copy, Debug, PartialEq, Eq)]
pub struct Barrier;

impl CommandTask for Barrier {
    ghost kind_of = { barrier_kind };

    ghost needs = { barrier_needs };

    ghost writes_of = { barrier_writes };

    ghost stepped = { barrier_stepped };

    ghost leaves = { barrier_leaves };

    ghost refuses = { barrier_refuses };

    ghost facts = { barrier_facts };

    ghost laws = { barrier_laws };

    fn kind(&self) -> StepKind {
        StepKind::Quiet
    }

    fn event(&self) -> Result<Event, NoMemory> {
        Err(NoMemory)
    }

    fn claim(&self) -> Result<Name, NoMemory> {
        Err(NoMemory)
    }

    fn owes(&self) -> u64 {
        0
    }

    fn advance<F: Fs>(&mut self, _actor: u8, fs: &mut F) -> Result<StepResult<()>, FsErr> {
        match fs.sync_all() {
            Ok(()) => Ok(StepResult::Done(())),
            Err(e) => Err(e),
        }
    }
}
