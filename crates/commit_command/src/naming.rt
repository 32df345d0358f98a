//! The change of the ref, once the commit is built and lasts.
ghost use Rattle.std.specs.Prelude.{◌≡◌, IfOk};
ghost use Rattle.commit_command.specs.Answers.{change_answer};
ghost use Rattle.commit_command.specs.Kinds.{planned};

use crate::answer::change_answer;
use crate::{CommitAnswer, CommitCommand};
use ost_types::{Csum, NoMemory, TryCopy};
use ref_command::RefWork;

/// The change that lets the ref name the commit.
#[derive(Drop, Debug)]
pub struct Naming {
    pub(crate) commit: Csum,
    pub(crate) work: RefWork,
}

impl Naming {
    /// What it answers, once it is done.
    pub(crate) fn into_answer(self) -> Option<CommitAnswer>
        ensures { result ≡ change_answer self.commit self.work.answer }
    {
        change_answer(self.commit, self.work.into_answer())
    }
}

impl CommitCommand {
    /// The change at its beginning: so far the ref names the commit's parent.
    pub(crate) fn plan(&self, commit: Csum) -> Result<Naming, NoMemory>
        ensures { IfOk result (λ n. n ≡ planned self.now commit) }
    {
        let name = self.name.copy()?;
        let work = RefWork::set(
            self.alloc,
            self.build.actor(),
            name,
            self.build.parent(),
            commit,
        );
        Ok(Naming { commit, work })
    }
}
