//! The command as a task of the system.
ghost use Rattle.std.specs.Prelude.{◌≡◌};
ghost use Rattle.rely_guarantee.specs.Laws.{step_of};
ghost use Rattle.commit_command.specs.Kinds.{build_kind, commit_kind, commit_leaves, commit_needs, commit_refuses, commit_stepped, commit_writes, put_wants};
ghost use Rattle.commit_command.specs.Facts.{commit_facts};
ghost use Rattle.commit_command.specs.Laws.{commit_laws};

use crate::CommitCommand;
use fs_trait::{Fs, FsErr, StepResult};
use ost_types::{Name, NoMemory, ObjName};
use rely_guarantee::{CommandTask, Event, StepKind, Wants};

fn put_wants(pinned: bool, name: ObjName) -> Wants
    ensures { result ≡ put_wants pinned name }
{
    Wants {
        exclusive: false,
        turn: false,
        shared: true,
        sysroot: false,
        hold: None,
        pin: if pinned { None } else { Some(name) },
    }
}

/// A step that puts an object takes the lock of those that store, and the first one of an object pins it.
fn build_kind(pinned: bool, storing: Option<ObjName>) -> StepKind
    ensures { result ≡ step_of (build_kind pinned storing) }
{
    match storing {
        None => StepKind::Quiet,
        Some(name) => StepKind::Take(put_wants(pinned, name)),
    }
}

impl CommandTask for CommitCommand {
    ghost kind_of = { commit_kind };

    ghost needs = { commit_needs };

    ghost writes_of = { commit_writes };

    ghost stepped = { commit_stepped };

    ghost leaves = { commit_leaves };

    ghost refuses = { commit_refuses };

    ghost facts = { commit_facts };

    ghost laws = { commit_laws };

    fn kind(&self) -> StepKind {
        match &self.change {
            None => build_kind(self.pinned, self.build.storing()),
            Some(naming) => naming.work.kind(),
        }
    }

    fn event(&self) -> Result<Event, NoMemory> {
        match &self.change {
            None => Err(NoMemory),
            Some(naming) => naming.work.event(),
        }
    }

    fn claim(&self) -> Result<Name, NoMemory> {
        Err(NoMemory)
    }

    fn owes(&self) -> u64 {
        match &self.change {
            None => 0,
            Some(naming) => naming.work.owes(),
        }
    }

    fn advance<F: Fs>(&mut self, actor: u8, fs: &mut F) -> Result<StepResult<()>, FsErr> {
        match &mut self.change {
            None => self.build_on(fs),
            Some(naming) => naming.work.advance(actor, fs),
        }
    }
}
