ghost use Rattle.std.specs.Prelude.{◌≡◌, ℕ};
ghost use Rattle.fs_trait.specs.Change.{Nothing};
ghost use Rattle.fs_trait.specs.declared.task.StepResult.TheVariants as turn;
ghost use Rattle.list_family.specs.Family.{list_kind, list_leaves, list_stepped, list_task_laws};

use fs_trait::{Fs, FsErr, StepResult};
use ost_types::{Name, NoMemory};
use rely_guarantee::{CommandTask, Event, StepKind};

/// A task with nothing to do. No command of the family runs it, since the books alone answer them.
#[derive(Drop)]
pub struct ListTask {}

impl CommandTask for ListTask {
    ghost kind_of = { list_kind };

    ghost needs = { λ actor t v. Unit {0} };

    ghost writes_of = { λ actor t v. Nothing };

    ghost stepped = { list_stepped };

    ghost leaves = { list_leaves };

    ghost refuses = { λ t v e. ⊥ };

    ghost facts = { λ lane t v b. Unit {0} };

    ghost laws = { list_task_laws };

    fn kind(&self) -> StepKind {
        StepKind::Quiet
    }

    fn event(&self) -> Result<Event, NoMemory> {
        Err(NoMemory)
    }

    fn claim(&self) -> Result<Name, NoMemory> {
        Err(NoMemory)
    }

    fn owes(&self) -> u64 {
        0
    }

    fn advance<F: Fs>(&mut self, _actor: u8, _fs: &mut F) -> Result<StepResult<()>, FsErr> {
        Ok(StepResult::Done(()))
    }
}
