//! The first step of each command, which looks the commit up.
ghost use Rattle.std.specs.Prelude.{◌≡◌, ◌≤◌, ◌+◌, Some, IfOk, IfErr, IsErrOf};
ghost use Rattle.fs_trait.specs.declared.types.FsErr.TheVariants as err;
ghost use Rattle.fs_trait.specs.View.{View};
ghost use Rattle.fs_trait.specs.Image.{Told};
ghost use Rattle.fs_trait.specs.Change.{Nothing, Writes};
ghost use Rattle.fs_trait.specs.Effect.{Elapses, HasCause, OfNone};
ghost use Rattle.read_command.specs.LookSteps.{Begins, IsLookStepped, LookTells, look_left};

use crate::commits::look_up;
use crate::{Cat, Log, Ls, ReadAnswer, ReadCommand};
use fs_trait::{Fs, FsErr};
use ost_types::{Csum, FsPath, Limits, NoMemory, TryCopy};
use ref_command::Found;
use std::alloc::Global;

/// What is to be read of the commit.
#[derive(Drop, Debug)]
pub enum Ask {
    /// The file at the path.
    Cat(FsPath),
    /// The path and all below it.
    Ls(FsPath),
    /// The commit itself, its parent and so on.
    Log,
}

#[derive(Drop, Debug)]
pub struct Look {
    alloc: Global,
    limits: Limits,
    commit: Csum,
    ask: Ask,
}

impl Look {
    pub(crate) fn new(alloc: Global, limits: Limits, commit: Csum, ask: Ask) -> Look
        ensures { result ≡ record { alloc = alloc; limits = limits; commit = commit; ask = ask } }
    {
        Look {
            alloc,
            limits,
            commit,
            ask,
        }
    }

    pub(crate) fn commit(&self) -> &Csum
        ensures { result.now ≡ self.now.commit }
    {
        &self.commit
    }

    /// At most so many steps go on.
    pub(crate) fn left(&self) -> u128
        ensures { result ≡ look_left self.now }
    {
        match &self.ask {
            Ask::Cat(path) => path.names().len() as u128 + 4,
            Ask::Ls(_) => 2 * self.limits.paths as u128 + 4,
            Ask::Log => (1 << 64) + 1,
        }
    }

    /// What comes next: where the commit can't be read, an answer.
    pub(crate) fn step<F: Fs>(&self, actor: u8, fs: &mut F) -> Result<ReadCommand, FsErr>
        ensures writes { (v : View) → F.view fs.old ≡ Some v → Told (F.view fs.new) (λ w. Writes Nothing v w) }
        ensures unchanged { (v : View) → F.view fs.old ≡ Some v → IsErrOf result err.NoMemory → F.view fs.new ≡ Some v }
        ensures told { (v : View) → F.view fs.old ≡ Some v → IfOk result (λ next. (F.view fs.new ≡ Some v) × LookTells v.now self.now next) }
        ensures stepped { IfOk result (IsLookStepped self.now) }
        ensures named { (v : View) → F.view fs.old ≡ Some v → IfErr result OfNone }
        ensures time { Elapses (F.clock fs.old) (F.clock fs.new) (F.was fs.old) (F.was fs.new) (F.view fs.new) }
        ensures cause { HasCause (F.faults fs.old) (F.faults fs.new) result }
        ensures room { F.spare fs.old ≤ F.spare fs.new + 1 }
    {
        let begun = self.begun()?;
        Ok(match look_up(self.alloc, actor, fs, self.commit)? {
            Found::Missing => ReadCommand::Ended(ReadAnswer::NoCommit(self.commit)),
            Found::Partial => ReadCommand::Ended(ReadAnswer::Partial(self.commit)),
            Found::Whole => begun,
        })
    }

    fn begun(&self) -> Result<ReadCommand, NoMemory>
        ensures { IfOk result (Begins self.now) }
    {
        Ok(match &self.ask {
            Ask::Cat(path) => {
                ReadCommand::Cat(Cat::new(self.alloc, self.limits, self.commit, path.copy()?))
            }
            Ask::Ls(path) => {
                ReadCommand::Ls(Ls::new(self.alloc, self.limits, self.commit, path.copy()?))
            }
            Ask::Log => ReadCommand::Log(Log::new(self.alloc, self.limits, self.commit)),
        })
    }
}
