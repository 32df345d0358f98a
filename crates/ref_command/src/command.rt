ghost use Rattle.std.specs.Prelude.{◌≡◌, ◌<◌, ◌≤◌, ◌+◌, ◌^◌, ℕ, Some, None, IfOk, IfErr, IsErrOf};
ghost use Rattle.fs_trait.specs.declared.types.FsErr.TheVariants as err;
ghost use Rattle.fs_trait.specs.View.{View, all_synced};
ghost use Rattle.fs_trait.specs.Image.{Told};
ghost use Rattle.fs_trait.specs.Change.{Nothing, Writes};
ghost use Rattle.fs_trait.specs.Effect.{Elapses, HasCause, OfNone};
ghost use Rattle.ref_command.specs.declared.command.RefCommand.TheVariants as command;
ghost use Rattle.ref_command.specs.Commands.{IsReset, IsDrop, answer_of, change_answer, command_kind, command_needs, command_writes, command_stepped, command_leaves, command_left, command_refuses, command_facts, found_kind, pin_wants, reset_left};
ghost use Rattle.ref_command.specs.Answers.{Begins};
ghost use Rattle.ref_command.specs.CommandLaws.{command_laws};
ghost use Rattle.rely_guarantee.specs.Laws.{step_of};

use crate::look_up::{Found, LookUp, commit_name};
use crate::plan::Plan;
use crate::{RefAnswer, RefWork};
use fs_trait::{Fs, FsErr, StepResult};
use ost_types::{Csum, Name, NoMemory};
use ref_store::RefRefusal;
use rely_guarantee::{CommandTask, Event, StepKind, Wants};
use repo_layout::RefName;
use std::alloc::Global;

/// What a command does that names a commit or changes a ref, once it knows what it is to do.
#[derive(Drop, Debug)]
pub enum RefCommand {
    /// `rev-parse` of a commit looks it up.
    Parse(LookUp),
    /// `reset` looks it up, makes all outlast a crash,
    Reset(LookUp, Plan),
    /// and changes the ref, with which `drop` begins.
    Change(RefWork),
}

impl RefCommand {
    /// `rev-parse` of a commit.
    pub fn parse(alloc: Global, commit: Csum) -> RefCommand
        ensures parse { result ≡ command.Parse (record { alloc = alloc; commit = commit; found = None }) }
        ensures left { command_left result < 2 ^ 128 }
    {
        RefCommand::Parse(LookUp::new(alloc, commit))
    }

    /// `reset`, which lets the ref name the commit. So far it must have the value `seen`, None where there is no such ref.
    pub fn reset(
        alloc: Global,
        lane: u8,
        name: RefName,
        seen: Option<Csum>,
        commit: Csum,
    ) -> RefCommand
        requires { lane < 16 }
        ensures reset { IsReset lane name seen commit result }
        ensures begins { Begins lane result }
        ensures left { command_left result < 2 ^ 128 }
    {
        let _text = name.as_slice();
        let look = LookUp::new(alloc, commit);
        RefCommand::Reset(look, Plan::new(alloc, lane, name, seen, commit))
    }

    /// `drop`, which removes the ref. So far it must name the commit `seen`.
    pub fn drop(alloc: Global, lane: u8, name: RefName, seen: Csum) -> RefCommand
        requires { lane < 16 }
        ensures drop { IsDrop lane name seen result }
        ensures begins { Begins lane result }
        ensures left { command_left result < 2 ^ 128 }
    {
        let _text = name.as_slice();
        RefCommand::Change(RefWork::remove(alloc, lane, name, seen))
    }

    /// What it answers, once it is done.
    pub fn into_answer(self) -> Option<RefAnswer>
        ensures { result ≡ answer_of self }
    {
        match self {
            RefCommand::Parse(look) => look.into_parsed(),
            RefCommand::Reset(look, _plan) => look.into_stopped(),
            RefCommand::Change(work) => change_answer(work.into_answer()),
        }
    }

    /// At most so many steps are left.
    pub fn left(&self) -> u128
        ensures { result ≡ command_left self.now }
    {
        match self {
            RefCommand::Parse(_) => 1,
            RefCommand::Reset(look, _) => reset_left(look.found()),
            RefCommand::Change(work) => work.left(),
        }
    }
}

fn change_answer(answer: Option<Result<(), RefRefusal>>) -> Option<RefAnswer>
    ensures { result ≡ change_answer answer }
{
    match answer {
        None => None,
        Some(Ok(())) => Some(RefAnswer::Changed),
        Some(Err(RefRefusal::RefClash(other))) => Some(RefAnswer::RefClash(other)),
        Some(Err(RefRefusal::RefMoved { seen, now })) => Some(RefAnswer::RefMoved { seen, now }),
        Some(Err(RefRefusal::NoRef)) => Some(RefAnswer::NoRef),
    }
}

fn reset_left(found: Option<Found>) -> u128
    ensures { result ≡ reset_left found }
{
    match found {
        None => u128::MAX,
        Some(_) => u128::MAX - 1,
    }
}

fn pin_wants(commit: &Csum) -> Wants
    ensures { result ≡ pin_wants commit.now }
{
    Wants {
        exclusive: false,
        turn: false,
        shared: false,
        sysroot: false,
        hold: None,
        pin: Some(commit_name(commit)),
    }
}

/// A look-up pins the commit, and behind it nothing is asked for.
fn look_kind(look: &LookUp) -> StepKind
    ensures { result ≡ step_of (found_kind look.now.found look.now.commit) }
{
    match look.found() {
        None => StepKind::Take(pin_wants(look.commit())),
        Some(_) => StepKind::Quiet,
    }
}

/// Makes all outlast a crash.
fn sync<F: Fs>(fs: &mut F) -> Result<(), FsErr>
    ensures writes { (v : View) → F.view fs.old ≡ Some v → Told (F.view fs.new) (λ w. Writes Nothing v w) }
    ensures synced { (v : View) → F.view fs.old ≡ Some v → IfOk result (λ x. F.view fs.new ≡ Some (all_synced v)) }
    ensures unchanged { (v : View) → F.view fs.old ≡ Some v → IsErrOf result err.NoMemory → F.view fs.new ≡ Some v }
    ensures named { IfErr result OfNone }
    ensures time { Elapses (F.clock fs.old) (F.clock fs.new) (F.was fs.old) (F.was fs.new) (F.view fs.new) }
    ensures cause { HasCause (F.faults fs.old) (F.faults fs.new) result }
    ensures room { F.spare fs.old ≤ F.spare fs.new + 1 }
{
    match fs.sync_all() {
        Ok(()) => Ok(()),
        Err(e) => Err(e),
    }
}

impl CommandTask for RefCommand {
    ghost kind_of = { command_kind };

    ghost needs = { command_needs };

    ghost writes_of = { command_writes };

    ghost stepped = { command_stepped };

    ghost leaves = { command_leaves };

    ghost refuses = { command_refuses };

    ghost facts = { command_facts };

    ghost laws = { command_laws };

    fn kind(&self) -> StepKind {
        match self {
            RefCommand::Parse(look) => StepKind::Take(pin_wants(look.commit())),
            RefCommand::Reset(look, _) => look_kind(look),
            RefCommand::Change(work) => work.kind(),
        }
    }

    fn event(&self) -> Result<Event, NoMemory> {
        match self {
            RefCommand::Parse(_) | RefCommand::Reset(_, _) => Err(NoMemory),
            RefCommand::Change(work) => work.event(),
        }
    }

    fn claim(&self) -> Result<Name, NoMemory> {
        Err(NoMemory)
    }

    fn owes(&self) -> u64 {
        match self {
            RefCommand::Parse(_) | RefCommand::Reset(_, _) => 0,
            RefCommand::Change(work) => work.owes(),
        }
    }

    fn advance<F: Fs>(&mut self, actor: u8, fs: &mut F) -> Result<StepResult<()>, FsErr> {
        match self {
            RefCommand::Parse(look) => {
                let _found = look.look(fs)?;
                Ok(StepResult::Done(()))
            }
            RefCommand::Reset(look, plan) => {
                if look.found().is_none() {
                    let found = look.look(fs)?;
                    return Ok(if found == Found::Whole {
                        StepResult::More
                    } else {
                        StepResult::Done(())
                    });
                }
                let work = plan.work()?;
                sync(fs)?;
                *self = RefCommand::Change(work);
                Ok(StepResult::More)
            }
            RefCommand::Change(work) => work.advance(actor, fs),
        }
    }
}
