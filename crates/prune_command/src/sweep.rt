//! What doesn't stay is removed, an object a step.
ghost use Rattle.std.specs.Prelude.{◌≡◌, ℕ, Some, IfOk, IfErr, IsErrOf, OnOk};
ghost use Rattle.fs_trait.specs.declared.types.FsErr.TheVariants as error;
ghost use Rattle.fs_trait.specs.View.{View};
ghost use Rattle.fs_trait.specs.Effect.{Elapses, HasCause, Next, OfNone};
ghost use Rattle.rely_guarantee.specs.declared.event.Event.{Event};
ghost use Rattle.rely_guarantee.specs.Laws as kinds;
ghost use Rattle.rely_guarantee.specs.Laws.{step_of};
ghost use Rattle.prune_sweep.specs.declared.part.Part.TheVariants as part;
ghost use Rattle.prune_sweep.specs.Steps.{Does};
ghost use Rattle.prune_sweep.specs.Sweeping.{KeepsRoom, calls_of};
ghost use Rattle.prune_command.specs.SweepSteps.{IsSweepStepped, sweep_kind};

use crate::{Phase, PruneAnswer};
use fs_trait::{Fs, FsErr, StepResult};
use ost_types::{NoMemory, ObjNames};
use prune_sweep::{Part, Sweep};
use rely_guarantee::StepKind;
use std::alloc::Global;

/// What the next step is to the whole system.
pub(crate) fn kind_of(sweep: &Sweep) -> StepKind
    ensures { (e : Event) (owed : ℕ) → result ≡ step_of (sweep_kind sweep.now.part e owed) }
{
    match sweep.part() {
        Part::Begin => StepKind::Publish,
        Part::Commit | Part::Object => StepKind::Remove,
        Part::Barrier | Part::Mark => StepKind::Published,
        Part::End => StepKind::MakeDurable,
        Part::Over => StepKind::Quiet,
    }
}

/// How many calls are owed.
pub(crate) fn owed_by(sweep: &Sweep) -> u64
    ensures { (e : Event) → result ≡ kinds.owed_by (sweep_kind sweep.now.part e (calls_of sweep.now)) }
{
    match sweep.part() {
        Part::Begin | Part::Over => 0,
        Part::End => 1,
        _ => sweep.calls(),
    }
}

/// A copy of the names of what is removed.
pub(crate) fn removed_of(alloc: Global, sweep: &Sweep) -> Result<ObjNames, NoMemory>
    ensures { IfOk result (λ names. names ≡ sweep.now.removed) }
{
    let mut names = Vec::new(alloc);
    names.extend_from_slice(sweep.removed())?;
    Ok(ObjNames::from_vec(names))
}

/// Removes the next object. Behind the last step there is an answer.
pub(crate) fn sweep_next<F: Fs>(sweep: &mut Sweep, fs: &mut F) -> Result<Option<Phase>, FsErr>
    ensures effect { (v : View) → F.view fs.old ≡ Some v → Does sweep.old v result (F.view fs.new) }
    ensures stepped { IfOk result (IsSweepStepped sweep.old sweep.new) }
    ensures refused { (sweep.old.part ≡ part.Begin → IfErr result OfNone) × (sweep.old.part ≡ part.Mark → IsErrOf result error.Missing → ⊥) }
    ensures time { Elapses (F.clock fs.old) (F.clock fs.new) (F.was fs.old) (F.was fs.new) (F.view fs.new) }
    ensures ticks { sweep.old.part ≡ part.End → OnOk result (Next (F.clock fs.old) (F.clock fs.new)) }
    ensures cause { HasCause (F.faults fs.old) (F.faults fs.new) result }
    ensures room { KeepsRoom sweep.old sweep.new (F.spare fs.old) (F.spare fs.new) result }
{
    match sweep.step(fs)? {
        StepResult::More => {
            sweep.part();
            Ok(None)
        }
        StepResult::Done(()) => Ok(Some(Phase::Over(PruneAnswer::Pruned {
            kept: sweep.kept(),
            removed: sweep.removed().len(),
        }))),
    }
}
