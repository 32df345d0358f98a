//! A command that reads a commit, as a task of the system.
ghost use Rattle.std.specs.Prelude.{◌≡◌, ◌<◌, ◌^◌};
ghost use Rattle.fs_trait.specs.declared.task.StepResult.{StepResult};
ghost use Rattle.rely_guarantee.specs.Laws.{step_of};
ghost use Rattle.read_command.specs.declared.command.ReadCommand.TheVariants as command;
ghost use Rattle.read_command.specs.Commands.{IsNew, answer_of, ends, read_facts, read_kind, read_leaves, read_left, read_needs, read_refuses, read_stepped, read_writes, turn_of};
ghost use Rattle.read_command.specs.Laws.{read_laws};
ghost use Rattle.read_command.specs.declared.look.Ask.TheVariants as asks;

use crate::commits::{pin_wants, sum_of_commit};
use crate::{Ask, Cat, Log, Look, Ls, ReadAnswer};
use fs_trait::{Fs, FsErr, StepResult};
use ost_types::{Csum, FsPath, Limits, Name, NoMemory};
use rely_guarantee::{CommandTask, Event, StepKind};
use std::alloc::Global;

/// A command that reads a commit. Each step reads at most one object.
#[derive(Drop, Debug)]
pub enum ReadCommand {
    /// The commit is looked up,
    Look(Look),
    /// and read by one of these,
    Cat(Cat),
    Ls(Ls),
    Log(Log),
    /// until there is an answer.
    Ended(ReadAnswer),
}

impl ReadCommand {
    /// `cat`: what the regular file at the path of the commit's tree holds.
    pub fn cat(alloc: Global, limits: Limits, commit: Csum, path: FsPath) -> ReadCommand
        ensures cat { result ≡ command.Look (record { alloc = alloc; limits = limits; commit = commit; ask = asks.Cat path }) }
        ensures new { IsNew result }
        ensures left { read_left result < 2 ^ 128 }
    {
        let _names = path.names();
        sum_of_commit(&commit);
        ReadCommand::Look(Look::new(alloc, limits, commit, Ask::Cat(path)))
    }

    /// `ls`: the path of the commit's tree, and all below it.
    pub fn ls(alloc: Global, limits: Limits, commit: Csum, path: FsPath) -> ReadCommand
        ensures ls { result ≡ command.Look (record { alloc = alloc; limits = limits; commit = commit; ask = asks.Ls path }) }
        ensures new { IsNew result }
        ensures left { read_left result < 2 ^ 128 }
    {
        sum_of_commit(&commit);
        ReadCommand::Look(Look::new(alloc, limits, commit, Ask::Ls(path)))
    }

    /// `log`: the commit, its parent, and so on.
    pub fn log(alloc: Global, limits: Limits, commit: Csum) -> ReadCommand
        ensures log { result ≡ command.Look (record { alloc = alloc; limits = limits; commit = commit; ask = asks.Log }) }
        ensures new { IsNew result }
        ensures left { read_left result < 2 ^ 128 }
    {
        sum_of_commit(&commit);
        ReadCommand::Look(Look::new(alloc, limits, commit, Ask::Log))
    }

    /// What it answers, once it is done.
    pub fn into_answer(self) -> Option<ReadAnswer>
        ensures { result ≡ answer_of self }
    {
        match self {
            ReadCommand::Ended(answer) => Some(answer),
            _ => None,
        }
    }

    /// At most so many steps go on.
    pub fn left(&self) -> u128
        ensures { result ≡ read_left self.now }
    {
        match self {
            ReadCommand::Look(look) => look.left(),
            ReadCommand::Cat(cat) => cat.left(),
            ReadCommand::Ls(ls) => ls.left(),
            ReadCommand::Log(log) => log.left(),
            ReadCommand::Ended(_) => 0,
        }
    }

    /// It goes on so.
    fn go(&mut self, next: ReadCommand) -> StepResult<()>
        ensures turn { result ≡ turn_of next }
        ensures next { self.new ≡ next }
    {
        let turn = match &next {
            ReadCommand::Ended(_) => StepResult::Done(()),
            _ => StepResult::More,
        };
        *self = next;
        turn
    }

    /// It ends with the answer, if there is one.
    fn end(&mut self, answer: Option<ReadAnswer>) -> StepResult<()>
        ensures { ends answer self.old result self.new }
    {
        match answer {
            None => StepResult::More,
            Some(answer) => {
                *self = ReadCommand::Ended(answer);
                StepResult::Done(())
            }
        }
    }
}

impl CommandTask for ReadCommand {
    ghost kind_of = { read_kind };

    ghost needs = { read_needs };

    ghost writes_of = { read_writes };

    ghost stepped = { read_stepped };

    ghost leaves = { read_leaves };

    ghost refuses = { read_refuses };

    ghost facts = { read_facts };

    ghost laws = { read_laws };

    fn kind(&self) -> StepKind {
        match self {
            ReadCommand::Look(look) => StepKind::Take(pin_wants(look.commit())),
            ReadCommand::Log(log) => log.kind(),
            ReadCommand::Cat(_) | ReadCommand::Ls(_) | ReadCommand::Ended(_) => StepKind::Quiet,
        }
    }

    fn event(&self) -> Result<Event, NoMemory> {
        Err(NoMemory)
    }

    fn claim(&self) -> Result<Name, NoMemory> {
        Err(NoMemory)
    }

    fn owes(&self) -> u64 {
        0
    }

    fn advance<F: Fs>(&mut self, actor: u8, fs: &mut F) -> Result<StepResult<()>, FsErr> {
        match self {
            ReadCommand::Look(look) => {
                let next = look.step(actor, fs)?;
                Ok(self.go(next))
            }
            ReadCommand::Cat(cat) => {
                let answer = cat.step(fs)?;
                Ok(self.end(answer))
            }
            ReadCommand::Ls(ls) => {
                let answer = ls.step(fs)?;
                Ok(self.end(answer))
            }
            ReadCommand::Log(log) => {
                let answer = log.step(fs)?;
                Ok(self.end(answer))
            }
            ReadCommand::Ended(_) => Ok(StepResult::Done(())),
        }
    }
}
