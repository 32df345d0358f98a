ghost use Rattle.std.specs.Prelude.{◌≡◌};
ghost use Rattle.rely_guarantee.specs.Either.{either_kind, either_needs, either_writes, either_stepped, either_leaves, either_refuses, either_facts, either_laws};

use crate::{CommandTask, Event, StepKind};
use fs_trait::{Fs, FsErr, StepResult};
use ost_types::{Name, NoMemory};

/// A task of one of two kinds.
#[derive(Drop, Debug)]
pub enum Either<A, B> {
    Left(A),
    Right(B),
}

impl<A: CommandTask, B: CommandTask> CommandTask for Either<A, B> {
    ghost kind_of = { either_kind A.kind_of B.kind_of };

    ghost needs = { either_needs A.needs B.needs };

    ghost writes_of = { either_writes A.writes_of B.writes_of };

    ghost stepped = { either_stepped A.stepped B.stepped };

    ghost leaves = { either_leaves A.leaves B.leaves };

    ghost refuses = { either_refuses A.refuses B.refuses };

    ghost facts = { either_facts A.facts B.facts };

    ghost laws = { either_laws A.laws B.laws };

    fn kind(&self) -> StepKind {
        match self {
            Either::Left(task) => task.kind(),
            Either::Right(task) => task.kind(),
        }
    }

    fn event(&self) -> Result<Event, NoMemory> {
        match self {
            Either::Left(task) => task.event(),
            Either::Right(task) => task.event(),
        }
    }

    fn claim(&self) -> Result<Name, NoMemory> {
        match self {
            Either::Left(task) => task.claim(),
            Either::Right(task) => task.claim(),
        }
    }

    fn owes(&self) -> u64 {
        match self {
            Either::Left(task) => task.owes(),
            Either::Right(task) => task.owes(),
        }
    }

    fn advance<F: Fs>(&mut self, actor: u8, fs: &mut F) -> Result<StepResult<()>, FsErr> {
        match self {
            Either::Left(task) => task.advance(actor, fs),
            Either::Right(task) => task.advance(actor, fs),
        }
    }
}
