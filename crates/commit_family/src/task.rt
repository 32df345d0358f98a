ghost use Rattle.commit_command.specs.Kinds.{commit_kind, commit_needs, commit_writes, commit_leaves, commit_refuses};
ghost use Rattle.commit_command.specs.Facts.{commit_facts};
ghost use Rattle.commit_family.specs.Task.{commits_stepped, commits_laws};

use commit_command::CommitCommand;
use fs_trait::{Fs, FsErr, StepResult};
use ost_types::{Name, NoMemory};
use rely_guarantee::{CommandTask, Event, StepKind};

/// The task of a commit.
#[derive(Drop)]
pub struct CommitsTask {
    pub(crate) work: CommitCommand,
}

impl CommandTask for CommitsTask {
    ghost kind_of = { λ t. commit_kind t.work };

    ghost needs = { λ actor t. commit_needs actor t.work };

    ghost writes_of = { λ actor t. commit_writes actor t.work };

    ghost stepped = { commits_stepped };

    ghost leaves = { λ t u new. commit_leaves t.work u new.work };

    ghost refuses = { λ t. commit_refuses t.work };

    ghost facts = { λ lane t. commit_facts lane t.work };

    ghost laws = { commits_laws };

    fn kind(&self) -> StepKind {
        self.work.kind()
    }

    fn event(&self) -> Result<Event, NoMemory> {
        self.work.event()
    }

    fn claim(&self) -> Result<Name, NoMemory> {
        self.work.claim()
    }

    fn owes(&self) -> u64 {
        self.work.owes()
    }

    fn advance<F: Fs>(&mut self, actor: u8, fs: &mut F) -> Result<StepResult<()>, FsErr> {
        let result = self.work.advance(actor, fs);
        // what a build keeps is told with what it met
        let _met = self.work.met();
        result
    }
}
