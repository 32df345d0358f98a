ghost use Rattle.rely_guarantee.specs.Along.{laws_along};
ghost use Rattle.clean_command.specs.Commands.{clean_kind, clean_leaves, clean_needs, clean_refuses, clean_stepped, clean_writes};
ghost use Rattle.clean_command.specs.Facts.{clean_facts};
ghost use Rattle.clean_command.specs.Laws.{clean_laws};

use clean_command::CleanCommand;
use fs_trait::{Fs, FsErr, StepResult};
use ost_types::{Name, NoMemory};
use rely_guarantee::{CommandTask, Event, StepKind};

/// The task of a removal of deployments.
#[derive(Drop)]
pub struct CleansTask {
    pub(crate) work: CleanCommand,
}

impl CommandTask for CleansTask {
    ghost kind_of = { λ t. clean_kind t.work };

    ghost needs = { λ actor t. clean_needs actor t.work };

    ghost writes_of = { λ actor t. clean_writes actor t.work };

    ghost stepped = { λ t u new. clean_stepped t.work u new.work };

    ghost leaves = { λ t u new. clean_leaves t.work u new.work };

    ghost refuses = { λ t. clean_refuses t.work };

    ghost facts = { λ lane t. clean_facts lane t.work };

    ghost laws = { laws_along (λ t. t.work) clean_laws };

    fn kind(&self) -> StepKind {
        self.work.kind()
    }

    fn event(&self) -> Result<Event, NoMemory> {
        self.work.event()
    }

    fn claim(&self) -> Result<Name, NoMemory> {
        self.work.claim()
    }

    fn owes(&self) -> u64 {
        self.work.owes()
    }

    fn advance<F: Fs>(&mut self, actor: u8, fs: &mut F) -> Result<StepResult<()>, FsErr> {
        self.work.advance(actor, fs)
    }
}
