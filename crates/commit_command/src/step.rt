//! A step of building the commit.
ghost use Rattle.std.specs.Prelude.{◌≡◌, ◌≤◌, ◌+◌, Some, IfOk, IfErr, IsErrOf};
ghost use Rattle.fs_trait.specs.View.{View};
ghost use Rattle.fs_trait.specs.Image.{Told};
ghost use Rattle.fs_trait.specs.Effect.{Elapses, HasCause};
ghost use Rattle.fs_trait.specs.Change.{Writes};
ghost use Rattle.fs_trait.specs.declared.types.FsErr.TheVariants as err;
ghost use Rattle.commit_build.specs.Steps.{Needs, WritesIn, Refuses};
ghost use Rattle.commit_build.specs.Committing.{commit_in};
ghost use Rattle.commit_command.specs.Kinds.{BuildSteps, BuildLeaves, leaves_at, leaves_build, planned, refuses_at, stepped_at, stepped_build};

use crate::CommitCommand;
use commit_build::{BuildRefusal, CommitTask};
use fs_trait::{Fs, FsErr, StepResult};
use ost_types::{Csum, NoMemory};

impl CommitCommand {
    /// Does the next step of the build; once all is done the change of the ref begins.
    pub(crate) fn build_on<F: Fs>(&mut self, fs: &mut F) -> Result<StepResult<()>, FsErr>
        requires needs { (v : View) → F.view fs.old ≡ Some v → Needs self.old.build v }
        ensures writes { (v : View) → F.view fs.old ≡ Some v → Told (F.view fs.new) (λ w. Writes (WritesIn self.old.objects self.old.build v) v w) }
        ensures unchanged { (v : View) → F.view fs.old ≡ Some v → IsErrOf result err.NoMemory → F.view fs.new ≡ Some v }
        ensures stepped { IfOk result (λ u. stepped_at (commit_in self.old.build.phase) self.old u self.new) }
        ensures after { (v : View) → F.view fs.old ≡ Some v → IfOk result (λ u. Told (F.view fs.new) (λ w. leaves_at (commit_in self.old.build.phase) self.old u self.new v w)) }
        ensures refused { (v : View) → F.view fs.old ≡ Some v → IfErr result (refuses_at (commit_in self.old.build.phase) self.old v) }
        ensures time { Elapses (F.clock fs.old) (F.clock fs.new) (F.was fs.old) (F.was fs.new) (F.view fs.new) }
        ensures cause { HasCause (F.faults fs.old) (F.faults fs.new) result }
        ensures room { F.spare fs.old ≤ F.spare fs.new + 1 }
    {
        match self.build.commit() {
            Some(commit) => {
                self.begin_change(commit)?;
                Ok(StepResult::More)
            }
            None => self.go_on(fs),
        }
    }

    /// Lets the change of the ref be what is next.
    fn begin_change(&mut self, commit: Csum) -> Result<(), NoMemory>
        ensures { IfOk result (λ x. self.new ≡ record self.old { change = Some (planned self.old commit) }) }
    {
        self.change = Some(self.plan(commit)?);
        Ok(())
    }

    fn go_on<F: Fs>(&mut self, fs: &mut F) -> Result<StepResult<()>, FsErr>
        requires needs { (v : View) → F.view fs.old ≡ Some v → Needs self.old.build v }
        ensures writes { (v : View) → F.view fs.old ≡ Some v → Told (F.view fs.new) (λ w. Writes (WritesIn self.old.objects self.old.build v) v w) }
        ensures unchanged { (v : View) → F.view fs.old ≡ Some v → IsErrOf result err.NoMemory → F.view fs.new ≡ Some v }
        ensures stepped { IfOk result (λ u. stepped_build self.old u self.new) }
        ensures after { (v : View) → F.view fs.old ≡ Some v → IfOk result (λ u. Told (F.view fs.new) (λ w. leaves_build self.old u self.new v w)) }
        ensures refused { (v : View) → F.view fs.old ≡ Some v → IfErr result (Refuses self.old.build v) }
        ensures time { Elapses (F.clock fs.old) (F.clock fs.new) (F.was fs.old) (F.was fs.new) (F.view fs.new) }
        ensures cause { HasCause (F.faults fs.old) (F.faults fs.new) result }
        ensures room { F.spare fs.old ≤ F.spare fs.new + 1 }
    {
        let storing = self.build.storing().is_some();
        let refused = build_step(&mut self.build, fs, self.objects)?;
        self.pinned = storing;
        match refused {
            None => Ok(StepResult::More),
            Some(refusal) => {
                self.refusal = Some(refusal);
                Ok(StepResult::Done(()))
            }
        }
    }
}

/// Does the next step of the build. None where it goes on, or all is done. `objects` is the number of objects in the store.
fn build_step<F: Fs>(
    build: &mut CommitTask,
    fs: &mut F,
    objects: u32,
) -> Result<Option<BuildRefusal>, FsErr>
    requires { (v : View) → F.view fs.old ≡ Some v → Needs build.old v }
    ensures writes { (v : View) → F.view fs.old ≡ Some v → Told (F.view fs.new) (λ w. Writes (WritesIn objects build.old v) v w) }
    ensures unchanged { (v : View) → F.view fs.old ≡ Some v → IsErrOf result err.NoMemory → F.view fs.new ≡ Some v }
    ensures stepped { IfOk result (λ refusal. BuildSteps objects build.old refusal build.new) }
    ensures after { (v : View) → F.view fs.old ≡ Some v → IfOk result (λ refusal. Told (F.view fs.new) (λ w. BuildLeaves objects build.old refusal build.new v w)) }
    ensures refused { (v : View) → F.view fs.old ≡ Some v → IfErr result (Refuses build.old v) }
    ensures time { Elapses (F.clock fs.old) (F.clock fs.new) (F.was fs.old) (F.was fs.new) (F.view fs.new) }
    ensures cause { HasCause (F.faults fs.old) (F.faults fs.new) result }
    ensures room { F.spare fs.old ≤ F.spare fs.new + 1 }
{
    match build.step(fs, objects)? {
        StepResult::More => Ok(None),
        StepResult::Done(Ok(_)) => Ok(None),
        StepResult::Done(Err(refusal)) => Ok(Some(refusal)),
    }
}
