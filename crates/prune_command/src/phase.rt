ghost use Rattle.std.specs.Prelude.{◌≡◌};
ghost use Rattle.prune_sweep.specs.Sweeping.{left_of};
ghost use Rattle.prune_command.specs.Phases.{phase_left, turn_of};

use crate::{Marked, PruneAnswer};
use fs_trait::StepResult;
use prune_sweep::{Listing, Part, Sweep};

/// How far a prune is.
#[derive(Drop, Debug)]
pub enum Phase {
    /// It waits for the locks.
    Waiting,
    /// It has them, and wasn't told yet what refs and pins there are.
    Unlearned,
    /// The names of all objects are listed, a folder a step.
    Listing(Listing),
    /// What stays is marked, an object a step.
    Marking(Marked),
    /// The rest is removed, an object a step.
    Sweeping(Sweep),
    /// There is an answer.
    Over(PruneAnswer),
}

impl Phase {
    /// At most so many steps go on.
    pub(crate) fn left(&self) -> u128
        ensures { result ≡ phase_left self.now }
    {
        match self {
            Phase::Waiting => u128::MAX,
            Phase::Unlearned => u128::MAX - 1,
            Phase::Listing(listing) => (1u128 << 100) + listing.left() as u128,
            Phase::Marking(marked) => (1u128 << 80) + marked.left() as u128,
            Phase::Sweeping(sweep) => sweep_left(sweep),
            Phase::Over(_) => 0,
        }
    }

    /// Whether it is done.
    pub(crate) fn turn(&self) -> StepResult<()>
        ensures { result ≡ turn_of self.now }
    {
        match self {
            Phase::Over(_) => StepResult::Done(()),
            _ => StepResult::More,
        }
    }
}

fn sweep_left(sweep: &Sweep) -> u128
    ensures { result ≡ left_of sweep.now }
{
    match sweep.part() {
        Part::Begin => sweep.calls() as u128 + 1,
        _ => sweep.calls() as u128,
    }
}
