ghost use Rattle.rely_guarantee.specs.Along.{laws_along};
ghost use Rattle.prune_command.specs.Commands.{prune_kind, prune_leaves, prune_needs, prune_refuses, prune_stepped, prune_writes};
ghost use Rattle.prune_command.specs.Facts.{prune_facts};
ghost use Rattle.prune_command.specs.Laws.{prune_laws};

use fs_trait::{Fs, FsErr, StepResult};
use ost_types::{Name, NoMemory};
use prune_command::PruneCommand;
use rely_guarantee::{CommandTask, Event, StepKind};

/// The task of a prune.
#[derive(Drop)]
pub struct PruneTask {
    pub(crate) work: PruneCommand,
}

impl CommandTask for PruneTask {
    ghost kind_of = { λ t. prune_kind t.work };

    ghost needs = { λ actor t. prune_needs actor t.work };

    ghost writes_of = { λ actor t. prune_writes actor t.work };

    ghost stepped = { λ t u new. prune_stepped t.work u new.work };

    ghost leaves = { λ t u new. prune_leaves t.work u new.work };

    ghost refuses = { λ t. prune_refuses t.work };

    ghost facts = { λ lane t. prune_facts lane t.work };

    ghost laws = { laws_along (λ t. t.work) prune_laws };

    fn kind(&self) -> StepKind {
        self.work.kind()
    }

    fn event(&self) -> Result<Event, NoMemory> {
        self.work.event()
    }

    fn claim(&self) -> Result<Name, NoMemory> {
        self.work.claim()
    }

    fn owes(&self) -> u64 {
        self.work.owes()
    }

    fn advance<F: Fs>(&mut self, actor: u8, fs: &mut F) -> Result<StepResult<()>, FsErr> {
        self.work.advance(actor, fs)
    }
}
