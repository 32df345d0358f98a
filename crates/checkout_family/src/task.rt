ghost use Rattle.rely_guarantee.specs.Along.{laws_along};
ghost use Rattle.checkout_command.specs.Commands.{checkout_kind, checkout_needs, checkout_writes, checkout_stepped, checkout_leaves, checkout_refuses, checkout_facts};
ghost use Rattle.checkout_command.specs.Laws.{checkout_laws};

use checkout_command::CheckoutCommand;
use fs_trait::{Fs, FsErr, StepResult};
use ost_types::{Name, NoMemory};
use rely_guarantee::{CommandTask, Event, StepKind};

/// The task of a checkout.
#[derive(Drop)]
pub struct CheckoutsTask {
    pub(crate) work: CheckoutCommand,
}

impl CommandTask for CheckoutsTask {
    ghost kind_of = { λ t. checkout_kind t.work };

    ghost needs = { λ actor t. checkout_needs actor t.work };

    ghost writes_of = { λ actor t. checkout_writes actor t.work };

    ghost stepped = { λ t u new. checkout_stepped t.work u new.work };

    ghost leaves = { λ t u new. checkout_leaves t.work u new.work };

    ghost refuses = { λ t. checkout_refuses t.work };

    ghost facts = { λ lane t. checkout_facts lane t.work };

    ghost laws = { laws_along (λ t. t.work) checkout_laws };

    fn kind(&self) -> StepKind {
        self.work.kind()
    }

    fn event(&self) -> Result<Event, NoMemory> {
        self.work.event()
    }

    fn claim(&self) -> Result<Name, NoMemory> {
        self.work.claim()
    }

    fn owes(&self) -> u64 {
        self.work.owes()
    }

    fn advance<F: Fs>(&mut self, actor: u8, fs: &mut F) -> Result<StepResult<()>, FsErr> {
        self.work.advance(actor, fs)
    }
}
