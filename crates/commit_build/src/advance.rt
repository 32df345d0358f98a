//! A step of putting an object, unless the store is full.
ghost use Rattle.std.specs.Prelude.{◌≡◌, ◌≤◌, ◌<◌, ◌+◌, ◌&&◌, ℕ, Option, Some, OnOk, IfOk, IfErr, IsErrOf};
ghost use Rattle.fs_trait.specs.View.{View};
ghost use Rattle.fs_trait.specs.Image.{Told};
ghost use Rattle.fs_trait.specs.Effect.{Elapses, HasCause, IsQuiet, OfNone};
ghost use Rattle.fs_trait.specs.Change.{Writes};
ghost use Rattle.fs_trait.specs.declared.types.FsErr.TheVariants as err;
ghost use Rattle.repo_model.specs.Objects.{path_of};
ghost use Rattle.obj_store.specs.Putting.{Takes, left};
ghost use Rattle.obj_store.specs.Steps.{Needs, WritesOf, Refuses, would_store_in};
ghost use Rattle.commit_build.specs.Advancing.{IsAdvanced, Tells, MayBeFull, MayRefuse, newly, OnFurther, WritesIn};

use fs_trait::{Fs, FsErr, StepResult};
use obj_store::{Put, PutTask};

/// What came of a step, and what it found or put at the object's path.
#[derive(Clone, Copy, Debug)]
pub(crate) enum Progress {
    /// The step would have put the object, and there is no room for one more: nothing was done.
    Full,
    Further(Option<Put>),
    Over(Option<Put>),
}

/// Does the next step. Makes at most one changing call and two reading ones.
pub(crate) fn advance<F: Fs>(task: &mut PutTask, fs: &mut F, full: bool) -> Result<Progress, FsErr>
    requires { (v : View) → F.view fs.old ≡ Some v → Needs task.old v }
    ensures writes { (v : View) → F.view fs.old ≡ Some v → Told (F.view fs.new) (λ w. Writes (WritesOf task.old v) v w) }
    ensures few { (v : View) → F.view fs.old ≡ Some v → Told (F.view fs.new) (λ w. Writes (WritesIn full task.old v) v w) }
    ensures after { (v : View) → F.view fs.old ≡ Some v → OnOk result (Told (F.view fs.new) (λ w. Needs task.new w)) }
    ensures tells { (v : View) → F.view fs.old ≡ Some v → IfOk result (λ progress. Told (F.view fs.new) (λ w. Tells full task.old v w progress)) }
    ensures fails { (v : View) → F.view fs.old ≡ Some v → IfErr result (Refuses task.old v) }
    ensures unchanged { (v : View) → F.view fs.old ≡ Some v → IsErrOf result err.NoMemory → F.view fs.new ≡ Some v }
    ensures named { IfErr result (MayRefuse task.old.phase) }
    ensures advanced { IsAdvanced full task.old result task.new }
    ensures falls { OnFurther result (left task.new < left task.old) }
    ensures time { Elapses (F.clock fs.old) (F.clock fs.new) (F.was fs.old) (F.was fs.new) (F.view fs.new) }
    ensures ticks { OnOk result (Takes task.old.phase (F.clock fs.old) (F.clock fs.new)) }
    ensures cause { HasCause (F.faults fs.old) (F.faults fs.new) result }
    ensures room { F.spare fs.old ≤ F.spare fs.new + 1 }
{
    if is_full(task, fs, full)? {
        return Ok(Progress::Full);
    }
    let before = task.came();
    match task.step(fs)? {
        StepResult::More => Ok(Progress::Further(newly(before, task.came()))),
        StepResult::Done(put) => Ok(Progress::Over(newly(before, Some(put)))),
    }
}

// whether the object can't be put for want of room
fn is_full<F: Fs>(task: &PutTask, fs: &mut F, full: bool) -> Result<bool, FsErr>
    ensures told { (v : View) → F.view fs.old ≡ Some v → IfOk result (λ b. b ≡ (full && would_store_in task.now.phase (v.now.at (path_of task.now.name)))) }
    ensures links { IfOk result (MayBeFull full task.now.phase) }
    ensures named { IfErr result OfNone }
    ensures quiet { IsQuiet (F.clock fs.old) (F.clock fs.new) (F.was fs.old) (F.was fs.new) (F.view fs.old) (F.view fs.new) }
    ensures keeps_room { F.spare fs.old ≤ F.spare fs.new }
    ensures cause { HasCause (F.faults fs.old) (F.faults fs.new) result }
{
    if !full {
        return Ok(false);
    }
    task.would_store(fs)
}

// what came of the object in this step
fn newly(before: Option<Put>, now: Option<Put>) -> Option<Put>
    ensures { result ≡ newly before now }
{
    match before {
        Some(_) => None,
        None => now,
    }
}
