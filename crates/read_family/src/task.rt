ghost use Rattle.rely_guarantee.specs.Along.{laws_along};
ghost use Rattle.read_command.specs.Commands.{read_kind, read_needs, read_writes, read_stepped, read_leaves, read_refuses, read_facts};
ghost use Rattle.read_command.specs.Laws.{read_laws};

use fs_trait::{Fs, FsErr, StepResult};
use ost_types::{Name, NoMemory};
use read_command::ReadCommand;
use rely_guarantee::{CommandTask, Event, StepKind};

/// The task of a command that reads a commit.
#[derive(Drop)]
pub struct ReadTask {
    pub(crate) work: ReadCommand,
}

impl CommandTask for ReadTask {
    ghost kind_of = { λ t. read_kind t.work };

    ghost needs = { λ actor t. read_needs actor t.work };

    ghost writes_of = { λ actor t. read_writes actor t.work };

    ghost stepped = { λ t u new. read_stepped t.work u new.work };

    ghost leaves = { λ t u new. read_leaves t.work u new.work };

    ghost refuses = { λ t. read_refuses t.work };

    ghost facts = { λ lane t. read_facts lane t.work };

    ghost laws = { laws_along (λ t. t.work) read_laws };

    fn kind(&self) -> StepKind {
        self.work.kind()
    }

    fn event(&self) -> Result<Event, NoMemory> {
        self.work.event()
    }

    fn claim(&self) -> Result<Name, NoMemory> {
        self.work.claim()
    }

    fn owes(&self) -> u64 {
        self.work.owes()
    }

    fn advance<F: Fs>(&mut self, actor: u8, fs: &mut F) -> Result<StepResult<()>, FsErr> {
        self.work.advance(actor, fs)
    }
}
