//! The removal of deployments that the list doesn't name, as a task of the system.
ghost use Rattle.std.specs.Prelude.{◌≡◌, ◌<◌, ◌^◌, suc, IfOk, OnErr};
ghost use Rattle.deploy_clean.specs.Cleaning.{begun};
ghost use Rattle.clean_command.specs.declared.phase.Phase.TheVariants as phases;
ghost use Rattle.clean_command.specs.Commands.{IsNew, clean_answer, clean_kind, clean_learns, clean_leaves, clean_left, clean_needs, clean_refuses, clean_stepped, clean_wants, clean_writes, goes, most_steps};
ghost use Rattle.clean_command.specs.Facts.{clean_facts};
ghost use Rattle.clean_command.specs.Laws.{clean_laws};

use crate::look::has_loader;
use crate::{CleanAnswer, Phase};
use boot_model::DepId;
use deploy_clean::CleanTask;
use fs_trait::{Fs, FsErr, StepResult};
use ost_types::{Name, NoMemory, copy_all};
use ref_book::RefBook;
use rely_guarantee::{CommandTask, Event, Pin, StepKind, Wants};
use std::alloc::Global;
use std::mem;

/// Removes each deployment that the list doesn't name, and its origin file. First it takes the lock of the lane that works on the list,
/// and is told by `learn` what that names. Then it looks whether a list is selected: where none is, it is over, and nothing goes. Each
/// further step lists at most one folder, or makes at most one change. It is given 2^127 steps, and refused as if memory were wanting
/// should it need more.
#[derive(Drop, Debug)]
pub struct CleanCommand {
    alloc: Global,
    lane: u8,
    // at most so many steps go on
    room: u128,
    phase: Phase,
}

impl CleanCommand {
    /// A removal by this lane.
    pub fn new(alloc: Global, lane: u8) -> CleanCommand
        ensures value { result ≡ record { alloc = alloc; lane = lane; room = most_steps; phase = phases.Waiting } }
        ensures new { IsNew result }
        ensures left { clean_left result < 2 ^ 128 }
    {
        CleanCommand {
            alloc,
            lane,
            room: 1u128 << 127,
            phase: Phase::Waiting,
        }
    }

    /// Which deployments are listed, once it has the lock. At any other time this changes nothing, nor where memory is wanting.
    pub fn learn(&mut self, refs: &RefBook, deployments: &[DepId], pins: &[Pin])
        ensures { clean_learns refs.now deployments.now pins.now self.old self.new }
    {
        if let Phase::Unlearned = self.phase {
            if let Ok(listed) = copy_all(self.alloc, deployments) {
                drop(mem::replace(&mut self.phase, Phase::Looking(listed)));
            }
        }
    }

    /// What it answers, once it is done.
    pub fn into_answer(self) -> Option<CleanAnswer>
        ensures { result ≡ clean_answer self }
    {
        let CleanCommand { phase, .. } = self;
        match phase {
            Phase::Over => Some(CleanAnswer::Cleaned),
            _ => None,
        }
    }

    /// At most so many steps go on.
    pub fn left(&self) -> u128
        ensures { result ≡ clean_left self.now }
    {
        match &self.phase {
            Phase::Over => 0,
            _ => self.room,
        }
    }

    /// It goes on with so much room, or is over.
    fn go(&mut self, turn: &StepResult<()>, room: u128)
        ensures { goes turn.now room self.old self.new }
    {
        match turn {
            StepResult::More => self.room = room,
            StepResult::Done(()) => self.end(),
        }
    }

    fn end(&mut self)
        ensures { self.new ≡ record self.old { phase = phases.Over } }
    {
        drop(mem::replace(&mut self.phase, Phase::Over));
    }

    /// What isn't listed is removed from now on.
    fn clean(&mut self, listed: Vec<DepId>, room: u128)
        ensures { self.new ≡ record self.old { room = room; phase = phases.Cleaning (begun listed.items) } }
    {
        self.room = room;
        let cleaning = CleanTask::new(self.alloc, listed);
        drop(mem::replace(&mut self.phase, Phase::Cleaning(cleaning)));
    }

    /// It has the lock.
    fn wait_for_list(&mut self, room: u128)
        ensures { self.new ≡ record self.old { room = room; phase = phases.Unlearned } }
    {
        self.room = room;
        drop(mem::replace(&mut self.phase, Phase::Unlearned));
    }
}

/// The room for further steps behind one that goes on.
fn room_behind(room: u128) -> Result<u128, NoMemory>
    ensures rest { IfOk result (λ rest. room ≡ suc rest) }
    ensures none { OnErr result (room ≡ 0) }
{
    match room.checked_sub(1) {
        Some(rest) => Ok(rest),
        None => Err(NoMemory),
    }
}

fn clean_wants() -> Wants
    ensures { result ≡ clean_wants }
{
    Wants {
        exclusive: false,
        turn: false,
        shared: false,
        sysroot: true,
        hold: None,
        pin: None,
    }
}

impl CommandTask for CleanCommand {
    ghost kind_of = { clean_kind };

    ghost needs = { clean_needs };

    ghost writes_of = { clean_writes };

    ghost stepped = { clean_stepped };

    ghost leaves = { clean_leaves };

    ghost refuses = { clean_refuses };

    ghost facts = { clean_facts };

    ghost laws = { clean_laws };

    fn kind(&self) -> StepKind {
        match &self.phase {
            Phase::Waiting => StepKind::Take(clean_wants()),
            _ => StepKind::Quiet,
        }
    }

    fn event(&self) -> Result<Event, NoMemory> {
        Err(NoMemory)
    }

    fn claim(&self) -> Result<Name, NoMemory> {
        Err(NoMemory)
    }

    fn owes(&self) -> u64 {
        0
    }

    fn advance<F: Fs>(&mut self, _actor: u8, fs: &mut F) -> Result<StepResult<()>, FsErr> {
        match &mut self.phase {
            Phase::Waiting => {
                let room = room_behind(self.room)?;
                self.wait_for_list(room);
                Ok(StepResult::More)
            }
            Phase::Unlearned => Err(FsErr::NoMemory),
            Phase::Looking(listed) => {
                let room = room_behind(self.room)?;
                if has_loader(self.alloc, fs)? {
                    let listed = mem::replace(listed, Vec::new(self.alloc));
                    self.clean(listed, room);
                    return Ok(StepResult::More);
                }
                self.end();
                Ok(StepResult::Done(()))
            }
            Phase::Cleaning(cleaning) => {
                let room = room_behind(self.room)?;
                let turn = cleaning.step(fs)?;
                self.go(&turn, room);
                Ok(turn)
            }
            Phase::Over => Ok(StepResult::Done(())),
        }
    }
}
