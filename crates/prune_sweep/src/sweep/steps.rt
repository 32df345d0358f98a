//! The steps of a sweep, one function a part.
ghost use Rattle.std.specs.Prelude.{◌≡◌, ◌≢◌, ◌⊎◌, ◌≤◌, ◌<◌, ◌+◌, length, Some, Ok, Err, IfErr, IsErrOf, OnOk};
ghost use Rattle.fs_trait.specs.declared.types.FsErr.TheVariants as error;
ghost use Rattle.fs_trait.specs.View.{View};
ghost use Rattle.fs_trait.specs.Effect.{Elapses, HasCause, Next, OfFinding, OfNone};
ghost use Rattle.prune_sweep.specs.declared.part.Part.TheVariants as part;
ghost use Rattle.prune_sweep.specs.Sweeping.{Follows, IsBehindObjects, IsStepped, KeepsRoom};
ghost use Rattle.prune_sweep.specs.Steps.{Does, TakesMark, TakesObject};

use super::Sweep;
use crate::part::Part;
use fs_trait::{Fs, FsErr, StepResult};
use ost_types::FsPath;

impl Sweep {
    pub(crate) fn begin<F: Fs>(&mut self, fs: &mut F) -> Result<StepResult<()>, FsErr>
        requires { self.old.part ≡ part.Begin }
        ensures effect { (v : View) → F.view fs.old ≡ Some v → Does self.old v result (F.view fs.new) }
        ensures stepped { IsStepped self.old result self.new }
        ensures refused { IfErr result OfNone }
        ensures named { IfErr result OfFinding }
        ensures time { Elapses (F.clock fs.old) (F.clock fs.new) (F.was fs.old) (F.was fs.new) (F.view fs.new) }
        ensures cause { HasCause (F.faults fs.old) (F.faults fs.new) result }
        ensures room { KeepsRoom self.old self.new (F.spare fs.old) (F.spare fs.new) result }
    {
        fs.reserve(self.calls())?;
        self.part = if self.commits > 0 {
            Part::Commit
        } else {
            Part::Barrier
        };
        Ok(StepResult::More)
    }

    pub(crate) fn unlink_object<F: Fs>(&mut self, fs: &mut F) -> Result<StepResult<()>, FsErr>
        requires { (self.old.part ≡ part.Commit) ⊎ (self.old.part ≡ part.Object) }
        ensures effect { (v : View) → F.view fs.old ≡ Some v → Does self.old v result (F.view fs.new) }
        ensures stepped { IsStepped self.old result self.new }
        ensures named { IfErr result OfFinding }
        ensures time { Elapses (F.clock fs.old) (F.clock fs.new) (F.was fs.old) (F.was fs.new) (F.view fs.new) }
        ensures cause { HasCause (F.faults fs.old) (F.faults fs.new) result }
        ensures room { KeepsRoom self.old self.new (F.spare fs.old) (F.spare fs.new) result }
    {
        self.unlink_next(fs)?;
        let part = self.part_behind();
        self.gone += 1;
        self.part = part;
        Ok(StepResult::More)
    }

    fn unlink_next<F: Fs>(&self, fs: &mut F) -> Result<(), FsErr>
        requires { self.now.gone < length self.now.removed }
        ensures effect { (v : View) → F.view fs.old ≡ Some v → TakesObject self.now v result (F.view fs.new) }
        ensures named { IfErr result OfFinding }
        ensures time { Elapses (F.clock fs.old) (F.clock fs.new) (F.was fs.old) (F.was fs.new) (F.view fs.new) }
        ensures cause { HasCause (F.faults fs.old) (F.faults fs.new) result }
        ensures room { F.spare fs.old ≤ F.spare fs.new + 1 }
        ensures enough { 0 < F.spare fs.old → IsErrOf result error.NoMemory → ⊥ }
    {
        fs.unlink(&self.paths[self.gone])
    }

    // the part behind the step that unlinks the next object
    fn part_behind(&self) -> Part
        requires { (self.now.part ≡ part.Commit) ⊎ (self.now.part ≡ part.Object) }
        ensures { Follows self.now.part (record self.now { gone = self.now.gone + 1; part = result }) }
    {
        let gone = self.gone + 1;
        if self.part == Part::Commit {
            if gone < self.commits {
                Part::Commit
            } else {
                Part::Barrier
            }
        } else if gone < self.removed.len() {
            Part::Object
        } else {
            behind_objects(self.unmarked, self.marks.len())
        }
    }

    pub(crate) fn sync_commits<F: Fs>(&mut self, fs: &mut F) -> Result<StepResult<()>, FsErr>
        requires { self.old.part ≡ part.Barrier }
        ensures effect { (v : View) → F.view fs.old ≡ Some v → Does self.old v result (F.view fs.new) }
        ensures stepped { IsStepped self.old result self.new }
        ensures named { IfErr result OfFinding }
        ensures time { Elapses (F.clock fs.old) (F.clock fs.new) (F.was fs.old) (F.was fs.new) (F.view fs.new) }
        ensures cause { HasCause (F.faults fs.old) (F.faults fs.new) result }
        ensures room { KeepsRoom self.old self.new (F.spare fs.old) (F.spare fs.new) result }
    {
        fs.sync_all()?;
        self.part = if self.gone < self.removed.len() {
            Part::Object
        } else {
            behind_objects(self.unmarked, self.marks.len())
        };
        Ok(StepResult::More)
    }

    pub(crate) fn unlink_mark<F: Fs>(&mut self, fs: &mut F) -> Result<StepResult<()>, FsErr>
        requires { self.old.part ≡ part.Mark }
        ensures effect { (v : View) → F.view fs.old ≡ Some v → Does self.old v result (F.view fs.new) }
        ensures stepped { IsStepped self.old result self.new }
        ensures marks { IsErrOf result error.Missing → ⊥ }
        ensures named { IfErr result OfFinding }
        ensures time { Elapses (F.clock fs.old) (F.clock fs.new) (F.was fs.old) (F.was fs.new) (F.view fs.new) }
        ensures cause { HasCause (F.faults fs.old) (F.faults fs.new) result }
        ensures room { KeepsRoom self.old self.new (F.spare fs.old) (F.spare fs.new) result }
    {
        take_mark(fs, &self.marks[self.unmarked])?;
        self.unmarked += 1;
        if self.unmarked == self.marks.len() {
            self.part = Part::End;
        }
        Ok(StepResult::More)
    }

    pub(crate) fn end<F: Fs>(&mut self, fs: &mut F) -> Result<StepResult<()>, FsErr>
        requires { self.old.part ≡ part.End }
        ensures effect { (v : View) → F.view fs.old ≡ Some v → Does self.old v result (F.view fs.new) }
        ensures stepped { IsStepped self.old result self.new }
        ensures named { IfErr result OfFinding }
        ensures time { Elapses (F.clock fs.old) (F.clock fs.new) (F.was fs.old) (F.was fs.new) (F.view fs.new) }
        ensures ticks { OnOk result (Next (F.clock fs.old) (F.clock fs.new)) }
        ensures cause { HasCause (F.faults fs.old) (F.faults fs.new) result }
        ensures room { KeepsRoom self.old self.new (F.spare fs.old) (F.spare fs.new) result }
    {
        fs.sync_all()?;
        self.part = Part::Over;
        Ok(StepResult::Done(()))
    }
}

// the part once all objects are gone, and so many marks of so many
fn behind_objects(unmarked: usize, marks: usize) -> Part
    ensures { IsBehindObjects unmarked marks result }
{
    if unmarked < marks {
        Part::Mark
    } else {
        Part::End
    }
}

/// Takes a mark away. That it is away already is as good: its commit's own command may have taken it.
fn take_mark<F: Fs>(fs: &mut F, mark: &FsPath) -> Result<(), FsErr>
    ensures effect { (v : View) → F.view fs.old ≡ Some v → TakesMark mark.now v result (F.view fs.new) }
    ensures marks { IsErrOf result error.Missing → ⊥ }
    ensures named { IfErr result OfFinding }
    ensures time { Elapses (F.clock fs.old) (F.clock fs.new) (F.was fs.old) (F.was fs.new) (F.view fs.new) }
    ensures cause { HasCause (F.faults fs.old) (F.faults fs.new) result }
    ensures room { F.spare fs.old ≤ F.spare fs.new + 1 }
    ensures enough { 0 < F.spare fs.old → IsErrOf result error.NoMemory → ⊥ }
{
    match fs.unlink(mark) {
        Ok(()) => Ok(()),
        Err(refusal) => unless_missing(refusal),
    }
}

fn unless_missing(refusal: FsErr) -> Result<(), FsErr>
    ensures away { refusal ≡ error.Missing → result ≡ Ok tt }
    ensures other { (refusal ≢ error.Missing) → result ≡ Err refusal }
{
    match refusal {
        FsErr::Missing => Ok(()),
        refusal => Err(refusal),
    }
}
