//! A tree committed from the first step to the last.
ghost use Rattle.std.specs.Prelude.{◌≡◌, Some, IfOk, IfErr};
ghost use Rattle.fs_trait.specs.View.{View};
ghost use Rattle.fs_trait.specs.Image.{Told};
ghost use Rattle.fs_trait.specs.Effect.{HasCause, LeavesEach};
ghost use Rattle.fs_trait.specs.Change.{Writes};
ghost use Rattle.commit_build.specs.Whole.{Ends, IsCounted, Leaves, MayBegin, Stops, Written};

use crate::CommitTask;
use crate::refusal::BuildRefusal;
use fs_trait::{Fs, FsErr, StepResult};
use obj_store::Put;
use ost_types::{Csum, ObjName};

/// Commits the tree. `count` is the number of objects in the store. A crash at any moment leaves at each object's path nothing, what
/// stood there, or the whole object, and the commit only where all objects of its tree are.
pub fn commit_tree<F: Fs>(
    fs: &mut F,
    task: CommitTask,
    count: u32,
) -> Result<Result<Csum, BuildRefusal>, FsErr>
    requires { (v : View) → F.view fs.old ≡ Some v → MayBegin task v.now }
    ensures any_moment { (v : View) → F.view fs.old ≡ Some v → LeavesEach (F.clock fs.old) (F.clock fs.new) (F.was fs.old) (F.was fs.new) (Leaves task v) }
    ensures writes { (v : View) → F.view fs.old ≡ Some v → Told (F.view fs.new) (λ w. Writes (Written task v) v w) }
    ensures done { (v : View) → F.view fs.old ≡ Some v → IfOk result (λ answer. Told (F.view fs.new) (λ w. Ends task count answer v w)) }
    ensures fails { (v : View) → F.view fs.old ≡ Some v → IfErr result (Stops task v.now) }
    ensures cause { HasCause (F.faults fs.old) (F.faults fs.new) result }
{
    let mut task = task;
    let mut count = count;
    'steps: loop {
        match task.step(fs, count)? {
            StepResult::More => count = counted(count, task.met()),
            StepResult::Done(answer) => return Ok(answer),
        }
    }
}

// the number of objects, with one that was just stored
fn counted(count: u32, met: Option<(ObjName, Put)>) -> u32
    ensures { IsCounted count met result }
{
    match met {
        Some((_, Put::Stored)) => count.saturating_add(1),
        _ => count,
    }
}
