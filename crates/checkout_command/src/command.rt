//! `checkout` of a commit, as a task of the system.
ghost use Rattle.std.specs.Prelude.{◌≡◌, ◌<◌, ◌^◌};
ghost use Rattle.checkout_command.specs.declared.command.CheckoutCommand.TheVariants as command;
ghost use Rattle.checkout_command.specs.Commands.{IsNew, answer_of, checkout_facts, checkout_kind, checkout_leaves, checkout_left, checkout_needs, checkout_refuses, checkout_stepped, checkout_writes, ends, goes};
ghost use Rattle.checkout_command.specs.Laws.{checkout_laws};

use crate::{CheckoutAnswer, Make, Read, Request};
use fs_trait::{Fs, FsErr, StepResult};
use ost_types::{Csum, Limits, Name, NoMemory};
use read_command::{pin_wants, sum_of_commit};
use rely_guarantee::{CommandTask, Event, StepKind};
use std::alloc::Global;

/// The tree of a commit is checked out. Each step reads at most one object, or makes one node.
#[derive(Drop, Debug)]
pub enum CheckoutCommand {
    /// The commit is looked up,
    Look(Request),
    /// its tree is read,
    Read(Read),
    /// and made in a folder of its own,
    Make(Make),
    /// until there is an answer.
    Ended(CheckoutAnswer),
}

impl CheckoutCommand {
    /// The tree of the commit, into the folder of the name.
    pub fn new(alloc: Global, limits: Limits, commit: Csum, name: Name) -> CheckoutCommand
        ensures value { result ≡ command.Look (record { alloc = alloc; limits = limits; commit = commit; name = name }) }
        ensures new { IsNew result }
        ensures left { checkout_left result < 2 ^ 128 }
    {
        sum_of_commit(&commit);
        CheckoutCommand::Look(Request {
            alloc,
            limits,
            commit,
            name,
        })
    }

    /// What it answers, once it is done.
    pub fn into_answer(self) -> Option<CheckoutAnswer>
        ensures { result ≡ answer_of self }
    {
        match self {
            CheckoutCommand::Ended(answer) => Some(answer),
            _ => None,
        }
    }

    /// At most so many steps go on.
    pub fn left(&self) -> u128
        ensures { result ≡ checkout_left self.now }
    {
        match self {
            CheckoutCommand::Look(request) => 3 * request.limits.paths as u128 + 5,
            CheckoutCommand::Read(read) => read.left(),
            CheckoutCommand::Make(make) => make.left(),
            CheckoutCommand::Ended(_) => 0,
        }
    }

    /// It goes on as this, if something else comes next.
    fn go(&mut self, next: Option<CheckoutCommand>) -> StepResult<()>
        ensures { goes next self.old result self.new }
    {
        match next {
            None => StepResult::More,
            Some(next) => {
                let turn = match &next {
                    CheckoutCommand::Ended(_) => StepResult::Done(()),
                    _ => StepResult::More,
                };
                *self = next;
                turn
            }
        }
    }

    /// It ends with the answer, if there is one.
    fn end(&mut self, answer: Option<CheckoutAnswer>) -> StepResult<()>
        ensures { ends answer self.old result self.new }
    {
        match answer {
            None => StepResult::More,
            Some(answer) => {
                *self = CheckoutCommand::Ended(answer);
                StepResult::Done(())
            }
        }
    }
}

impl CommandTask for CheckoutCommand {
    ghost kind_of = { checkout_kind };

    ghost needs = { checkout_needs };

    ghost writes_of = { checkout_writes };

    ghost stepped = { checkout_stepped };

    ghost leaves = { checkout_leaves };

    ghost refuses = { checkout_refuses };

    ghost facts = { checkout_facts };

    ghost laws = { checkout_laws };

    fn kind(&self) -> StepKind {
        match self {
            CheckoutCommand::Look(request) => StepKind::Take(pin_wants(&request.commit)),
            CheckoutCommand::Make(make) => make.kind(),
            CheckoutCommand::Read(_) | CheckoutCommand::Ended(_) => StepKind::Quiet,
        }
    }

    fn event(&self) -> Result<Event, NoMemory> {
        Err(NoMemory)
    }

    fn claim(&self) -> Result<Name, NoMemory> {
        match self {
            CheckoutCommand::Make(make) => make.name(),
            _ => Err(NoMemory),
        }
    }

    fn owes(&self) -> u64 {
        0
    }

    fn advance<F: Fs>(&mut self, actor: u8, fs: &mut F) -> Result<StepResult<()>, FsErr> {
        match self {
            CheckoutCommand::Look(request) => {
                let next = request.look(actor, fs)?;
                Ok(self.go(Some(next)))
            }
            CheckoutCommand::Read(read) => {
                let next = read.step(fs)?;
                Ok(self.go(next))
            }
            CheckoutCommand::Make(make) => {
                let answer = make.step(fs)?;
                Ok(self.end(answer))
            }
            CheckoutCommand::Ended(_) => Ok(StepResult::Done(())),
        }
    }
}
