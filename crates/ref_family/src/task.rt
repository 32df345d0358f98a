ghost use Rattle.rely_guarantee.specs.Along.{laws_along};
ghost use Rattle.ref_command.specs.Commands.{command_kind, command_needs, command_writes, command_stepped, command_leaves, command_refuses, command_facts};
ghost use Rattle.ref_command.specs.CommandLaws.{command_laws};

use fs_trait::{Fs, FsErr, StepResult};
use ost_types::{Name, NoMemory};
use ref_command::RefCommand;
use rely_guarantee::{CommandTask, Event, StepKind};

/// The task of a command that looks a commit up or changes a ref.
#[derive(Drop)]
pub struct RefsTask {
    pub(crate) work: RefCommand,
}

impl CommandTask for RefsTask {
    ghost kind_of = { λ t. command_kind t.work };

    ghost needs = { λ actor t. command_needs actor t.work };

    ghost writes_of = { λ actor t. command_writes actor t.work };

    ghost stepped = { λ t u new. command_stepped t.work u new.work };

    ghost leaves = { λ t u new. command_leaves t.work u new.work };

    ghost refuses = { λ t. command_refuses t.work };

    ghost facts = { λ lane t. command_facts lane t.work };

    ghost laws = { laws_along (λ t. t.work) command_laws };

    fn kind(&self) -> StepKind {
        self.work.kind()
    }

    fn event(&self) -> Result<Event, NoMemory> {
        self.work.event()
    }

    fn claim(&self) -> Result<Name, NoMemory> {
        self.work.claim()
    }

    fn owes(&self) -> u64 {
        self.work.owes()
    }

    fn advance<F: Fs>(&mut self, actor: u8, fs: &mut F) -> Result<StepResult<()>, FsErr> {
        self.work.advance(actor, fs)
    }
}
