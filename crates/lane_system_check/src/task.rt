ghost use Rattle.std.specs.Prelude.{◌≡◌, ℕ};
ghost use Rattle.fs_trait.specs.Change.{Nothing};
ghost use Rattle.lane_system_check.specs.Waiting.{lock_wants, wait_kind, wait_laws, wait_leaves, wait_stepped};

use fs_trait::{Fs, FsErr, StepResult};
use ost_types::{Name, NoMemory};
use rely_guarantee::{CommandTask, Event, StepKind, Wants};

/// The task of a wait.
#[derive(Drop)]
pub struct WaitTask {
    pub(crate) taken: u8,
    pub(crate) number: u8,
    pub(crate) holds: bool,
}

fn lock_wants() -> Wants
    ensures { result ≡ lock_wants }
{
    Wants {
        exclusive: false,
        turn: true,
        shared: false,
        sysroot: false,
        hold: None,
        pin: None,
    }
}

impl CommandTask for WaitTask {
    ghost kind_of = { wait_kind };

    ghost needs = { λ actor t v. Unit {0} };

    ghost writes_of = { λ actor t v. Nothing };

    ghost stepped = { wait_stepped };

    ghost leaves = { wait_leaves };

    ghost refuses = { λ t v e. ⊥ };

    ghost facts = { λ lane t v b. Unit {0} };

    ghost laws = { wait_laws };

    fn kind(&self) -> StepKind {
        if self.holds && self.taken == 0 {
            StepKind::Take(lock_wants())
        } else {
            StepKind::Quiet
        }
    }

    fn event(&self) -> Result<Event, NoMemory> {
        Err(NoMemory)
    }

    fn claim(&self) -> Result<Name, NoMemory> {
        Err(NoMemory)
    }

    fn owes(&self) -> u64 {
        0
    }

    fn advance<F: Fs>(&mut self, _actor: u8, _fs: &mut F) -> Result<StepResult<()>, FsErr> {
        if self.taken < self.number {
            self.taken += 1;
            Ok(StepResult::More)
        } else {
            Ok(StepResult::Done(()))
        }
    }
}
