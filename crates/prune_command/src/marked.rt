//! What stays is marked, an object a step.
ghost use Rattle.std.specs.Prelude.{◌≡◌, ◌≤◌, List, Some, IfOk, IfErr};
ghost use Rattle.ost_types.specs.declared.object.ObjName.{ObjName as ObjectName};
ghost use Rattle.fs_trait.specs.View.{Disk, View};
ghost use Rattle.fs_trait.specs.Effect.{HasCause, IsQuiet, OfNone};
ghost use Rattle.store_check.specs.Listing.{AreAll};
ghost use Rattle.prune_mark.specs.Marking.{Knows, left_of};
ghost use Rattle.prune_command.specs.Learned.{from_of};
ghost use Rattle.prune_command.specs.MarkSteps.{IsMarkStepped, IsOfFault, MarkTells};

use crate::{Known, Phase, PruneAnswer};
use fs_trait::{Fs, FsErr, StepResult};
use ost_types::{Limits, NoMemory, ObjName};
use prune_mark::{MarkFault, Marking};
use prune_sweep::plan_sweep;
use repo_layout::object_path;
use std::alloc::Global;
use std::marker::Model;

/// The marking of what stays.
#[derive(Drop, Debug)]
pub struct Marked {
    alloc: Global,
    marking: Marking,
    // at most so many steps go on
    left: usize,
}

impl Model for Marked {
    ghost use Rattle.std.specs.Prelude.{◌≡◌, ◌≤◌};
    ghost use Rattle.prune_mark.specs.Marking.{left_of};
    ghost use Rattle.prune_command.specs.Marks.{Marks};

    ghost Value = { Marks };

    ghost view = { λ a. record { marking = a.marking; left = a.left } };

    ghost invariant = { λ a. left_of a.marking ≤ a.left };
}

impl Marked {
    pub(crate) fn new(
        alloc: Global,
        names: Vec<ObjName>,
        known: &Known,
        depth: u32,
    ) -> Result<Marked, NoMemory>
        ensures depth { IfOk result (λ m. m.marking.depth ≡ depth) }
        ensures begun { (d : Disk) → AreAll d names.items → IfOk result (λ m. Knows d (from_of known.now) m.marking) }
    {
        let from = known.all(alloc)?;
        let left = names.len();
        let marking = Marking::new(alloc, names, from.as_slice(), depth)?;
        Ok(Marked {
            alloc,
            marking,
            left,
        })
    }

    /// At most so many steps go on.
    pub(crate) fn left(&self) -> usize
        ensures { result ≡ self.now.left }
    {
        self.left
    }

    /// Marks what the next object names. Behind the last one comes the removal of the rest.
    pub(crate) fn step<F: Fs>(
        &mut self,
        fs: &mut F,
        limits: &Limits,
        held: &[ObjName],
    ) -> Result<Option<Phase>, FsErr>
        ensures told { (v : View) (from : List ObjectName) → F.view fs.old ≡ Some v → Knows v.now from self.old.marking → IfOk result (MarkTells v limits.now.content from held.now self.old.marking.depth self.new.marking) }
        ensures stepped { IfOk result (IsMarkStepped self.old self.new) }
        ensures named { (v : View) (from : List ObjectName) → F.view fs.old ≡ Some v → Knows v.now from self.old.marking → IfErr result OfNone }
        ensures quiet { IsQuiet (F.clock fs.old) (F.clock fs.new) (F.was fs.old) (F.was fs.new) (F.view fs.old) (F.view fs.new) }
        ensures keeps_room { F.spare fs.old ≤ F.spare fs.new }
        ensures cause { HasCause (F.faults fs.old) (F.faults fs.new) result }
    {
        match self.marking.step(fs, limits) {
            Ok(StepResult::More) => {
                self.left -= 1;
                Ok(None)
            }
            Ok(StepResult::Done(())) => {
                let sweep = plan_sweep(self.alloc, fs, &self.marking, held)?;
                Ok(Some(Phase::Sweeping(sweep)))
            }
            Err(fault) => outside(self.alloc, fault),
        }
    }
}

/// What comes of a fault: an object that isn't as it should be is the answer.
fn outside(alloc: Global, fault: MarkFault) -> Result<Option<Phase>, FsErr>
    ensures { IsOfFault fault result }
{
    match fault {
        MarkFault::Absent(name) | MarkFault::Damaged(name) => {
            let path = object_path(alloc, &name)?;
            Ok(Some(Phase::Over(PruneAnswer::Outside(path))))
        }
        MarkFault::Fs(refusal) => Err(refusal),
        MarkFault::NoMemory => Err(FsErr::NoMemory),
    }
}
