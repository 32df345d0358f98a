//! The removal of what nothing leads to, as a task of the system.
ghost use Rattle.std.specs.Prelude.{◌≡◌, ◌<◌, ◌≤◌, ◌^◌, [], Some, IfOk, IfErr, OnOk, IsErrOf};
ghost use Rattle.rely_guarantee.specs.declared.event.Event.{Event};
ghost use Rattle.prune_command.specs.declared.phase.Phase.TheVariants as phases;
ghost use Rattle.prune_command.specs.Commands.{IsNew, change_of, goes, prune_answer, prune_kind, prune_learns, prune_leaves, prune_left, prune_needs, prune_refuses, prune_stepped, prune_wants, prune_writes};
ghost use Rattle.prune_command.specs.Facts.{prune_facts};
ghost use Rattle.prune_command.specs.Laws.{prune_laws};

use crate::list::list;
use crate::sweep::{kind_of, owed_by, removed_of, sweep_next};
use crate::{Known, Phase, PruneAnswer};
use boot_model::DepId;
use fs_trait::{Fs, FsErr, StepResult};
use ost_types::{Limits, Name, NoMemory, TryCopy};
use prune_sweep::{Listing, Sweep};
use ref_book::RefBook;
use rely_guarantee::{CommandTask, Event, Pin, StepKind, Wants};
use std::alloc::Global;
use std::mem;

/// Removes exactly the objects that no ref and no pin of another lane leads to. First it takes both locks, and is told by `learn` what
/// refs and pins there are; each further step reads at most one object or folder, or makes at most one change.
#[derive(Drop, Debug)]
pub struct PruneCommand {
    alloc: Global,
    lane: u8,
    // how many parents of each root stay
    depth: u32,
    limits: Limits,
    known: Known,
    phase: Phase,
}

impl PruneCommand {
    /// A prune by this lane, which keeps so many parents of each commit that a ref names.
    pub fn new(alloc: Global, lane: u8, depth: u32, limits: Limits) -> PruneCommand
        ensures value { result ≡ record { alloc = alloc; lane = lane; depth = depth; limits = limits; known = record { roots = []; held = [] }; phase = phases.Waiting } }
        ensures new { IsNew result }
        ensures left { prune_left result < 2 ^ 128 }
    {
        PruneCommand {
            alloc,
            lane,
            depth,
            limits,
            known: Known::nothing(alloc),
            phase: Phase::Waiting,
        }
    }

    /// What refs and pins there are, once it has the locks. At any other time this changes nothing, nor where memory is wanting.
    pub fn learn(&mut self, refs: &RefBook, deployments: &[DepId], pins: &[Pin])
        ensures { prune_learns refs.now deployments.now pins.now self.old self.new }
    {
        if let Phase::Unlearned = self.phase {
            if let Ok(known) = Known::of(self.alloc, self.lane, refs, deployments, pins) {
                self.begin(known);
            }
        }
    }

    fn begin(&mut self, known: Known)
        ensures { self.new ≡ record self.old { known = known; phase = phases.Listing (record { names = []; first = 0 }) } }
    {
        drop(mem::replace(&mut self.known, known));
        drop(mem::replace(&mut self.phase, Phase::Listing(Listing::new(self.alloc))));
    }

    /// What it answers, once it is done.
    pub fn into_answer(self) -> Option<PruneAnswer>
        ensures { result ≡ prune_answer self }
    {
        let PruneCommand { phase, .. } = self;
        match phase {
            Phase::Over(answer) => Some(answer),
            _ => None,
        }
    }

    /// At most so many steps go on.
    pub fn left(&self) -> u128
        ensures { result ≡ prune_left self.now }
    {
        self.phase.left()
    }

    /// It goes on in this phase, if another one comes next.
    fn go(&mut self, next: Option<Phase>) -> StepResult<()>
        ensures { goes next self.old result self.new }
    {
        match next {
            None => StepResult::More,
            Some(next) => {
                let turn = next.turn();
                drop(mem::replace(&mut self.phase, next));
                turn
            }
        }
    }

    /// The change that the removal makes.
    fn change(&self, sweep: &Sweep) -> Result<Event, NoMemory>
        ensures { IfOk result (λ e. e ≡ change_of self.now sweep.now) }
    {
        Ok(Event::Pruned {
            depth: self.depth,
            roots: self.known.roots.copy()?,
            held: self.known.held.copy()?,
            removed: removed_of(self.alloc, sweep)?,
        })
    }
}

fn prune_wants() -> Wants
    ensures { result ≡ prune_wants }
{
    Wants {
        exclusive: true,
        turn: true,
        shared: false,
        sysroot: false,
        hold: None,
        pin: None,
    }
}

impl CommandTask for PruneCommand {
    ghost kind_of = { prune_kind };

    ghost needs = { prune_needs };

    ghost writes_of = { prune_writes };

    ghost stepped = { prune_stepped };

    ghost leaves = { prune_leaves };

    ghost refuses = { prune_refuses };

    ghost facts = { prune_facts };

    ghost laws = { prune_laws };

    fn kind(&self) -> StepKind {
        match &self.phase {
            Phase::Waiting => StepKind::Take(prune_wants()),
            Phase::Sweeping(sweep) => kind_of(sweep),
            _ => StepKind::Quiet,
        }
    }

    fn event(&self) -> Result<Event, NoMemory> {
        match &self.phase {
            Phase::Sweeping(sweep) => self.change(sweep),
            _ => Err(NoMemory),
        }
    }

    fn claim(&self) -> Result<Name, NoMemory> {
        Err(NoMemory)
    }

    fn owes(&self) -> u64 {
        match &self.phase {
            Phase::Sweeping(sweep) => owed_by(sweep),
            _ => 0,
        }
    }

    fn advance<F: Fs>(&mut self, _actor: u8, fs: &mut F) -> Result<StepResult<()>, FsErr> {
        let alloc = self.alloc;
        let depth = self.depth;
        match &mut self.phase {
            Phase::Waiting => Ok(self.go(Some(Phase::Unlearned))),
            Phase::Unlearned => Err(FsErr::NoMemory),
            Phase::Listing(listing) => {
                let next = list(alloc, fs, listing, &self.known, depth)?;
                Ok(self.go(next))
            }
            Phase::Marking(marked) => {
                let next = marked.step(fs, &self.limits, self.known.held.as_slice())?;
                Ok(self.go(next))
            }
            Phase::Sweeping(sweep) => {
                let next = sweep_next(sweep, fs)?;
                Ok(self.go(next))
            }
            Phase::Over(_) => Ok(StepResult::Done(())),
        }
    }
}
