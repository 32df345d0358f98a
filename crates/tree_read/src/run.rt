//! The tree of a commit as a whole.
ghost use Rattle.std.specs.Prelude.{◌≡◌, ◌≤◌, Some};
ghost use Rattle.fs_trait.specs.View.{View};
ghost use Rattle.fs_trait.specs.Effect.{IsQuiet};
ghost use Rattle.tree_read.specs.Whole.{HasCauseOf, ReadsTree};

use crate::fault::TreeFault;
use crate::task::TreeTask;
use fs_trait::{Fs, StepResult};
use ost_types::{Csum, Limits, PathMap};
use std::alloc::Global;

/// The tree of the commit, or the first object that is missing or damaged. Nothing is written.
pub fn tree_of<F: Fs>(
    alloc: Global,
    fs: &mut F,
    commit: &Csum,
    limits: &Limits,
) -> Result<PathMap, TreeFault>
    ensures told { (v : View) → F.view fs.old ≡ Some v → ReadsTree v.now limits.now commit.now result }
    ensures quiet { IsQuiet (F.clock fs.old) (F.clock fs.new) (F.was fs.old) (F.was fs.new) (F.view fs.old) (F.view fs.new) }
    ensures keeps_room { F.spare fs.old ≤ F.spare fs.new }
    ensures cause { HasCauseOf (F.faults fs.old) (F.faults fs.new) result }
{
    let mut task = TreeTask::new(alloc, *commit, *limits);
    'steps: loop {
        match task.step(fs)? {
            StepResult::More => {}
            StepResult::Done(Ok(())) => return Ok(task.into_found()),
            StepResult::Done(Err(fault)) => return Err(fault),
        }
    }
}
