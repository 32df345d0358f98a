//! The steps of putting a link at a path.
ghost use Rattle.std.specs.Prelude.{◌≡◌, ◌⊎◌, ◌≤◌, ◌<◌, ◌+◌, ℕ, Some, OnOk, IfErr, IsErrOf};
ghost use Rattle.fs_trait.specs.View.{View};
ghost use Rattle.fs_trait.specs.Image.{Told};
ghost use Rattle.fs_trait.specs.declared.types.FsErr.TheVariants as err;
ghost use Rattle.fs_trait.specs.Effect.{Elapses, HasCause};
ghost use Rattle.fs_trait.specs.Change.{Writes};
ghost use Rattle.folder_build.specs.declared.link.LinkPhase.TheVariants as phase;
ghost use Rattle.folder_build.specs.Build.{OnMore};
ghost use Rattle.folder_build.specs.Link.{IsClear, IsStepped, KeepsRoom, Takes, left};
ghost use Rattle.folder_build.specs.LinkSteps.{Needs, Refuses, WritesOf};

use super::{LinkPhase, LinkTask};
use crate::metas::link_meta;
use fs_trait::{Fs, FsErr, StepResult};

impl LinkTask {
    /// Does the next step: at most one changing call, and two reading ones before it. It is done once the link is at its path.
    /// After an error the task is unchanged, so that the step may be tried again.
    pub fn step<F: Fs>(&mut self, fs: &mut F) -> Result<StepResult<()>, FsErr>
        requires { (v : View) → F.view fs.old ≡ Some v → Needs self.old v }
        ensures writes { (v : View) → F.view fs.old ≡ Some v → Told (F.view fs.new) (λ w. Writes (WritesOf self.old v) v w) }
        ensures after { (v : View) → F.view fs.old ≡ Some v → OnOk result (Told (F.view fs.new) (λ w. Needs self.new w)) }
        ensures fails { (v : View) → F.view fs.old ≡ Some v → IfErr result (Refuses self.old v) }
        ensures unchanged { (v : View) → F.view fs.old ≡ Some v → IsErrOf result err.NoMemory → F.view fs.new ≡ Some v }
        ensures stepped { IsStepped self.old result self.new }
        ensures falls { OnMore result (left self.new < left self.old) }
        ensures time { Elapses (F.clock fs.old) (F.clock fs.new) (F.was fs.old) (F.was fs.new) (F.view fs.new) }
        ensures ticks { OnOk result (Takes self.old.phase (F.clock fs.old) (F.clock fs.new)) }
        ensures cause { HasCause (F.faults fs.old) (F.faults fs.new) result }
        ensures room { KeepsRoom self.old.phase (F.spare fs.old) (F.spare fs.new) result }
    {
        match &self.phase {
            LinkPhase::Clear(_) => self.clear(fs),
            LinkPhase::Make => self.make(fs),
            LinkPhase::Replace => self.replace(fs),
            LinkPhase::Ended => Ok(StepResult::Done(())),
        }
    }

    // removes what stands at the staging path
    fn clear<F: Fs>(&mut self, fs: &mut F) -> Result<StepResult<()>, FsErr>
        requires phase { IsClear self.old.phase }
        requires needs { (v : View) → F.view fs.old ≡ Some v → Needs self.old v }
        ensures writes { (v : View) → F.view fs.old ≡ Some v → Told (F.view fs.new) (λ w. Writes (WritesOf self.old v) v w) }
        ensures after { (v : View) → F.view fs.old ≡ Some v → OnOk result (Told (F.view fs.new) (λ w. Needs self.new w)) }
        ensures fails { (v : View) → F.view fs.old ≡ Some v → IfErr result (Refuses self.old v) }
        ensures unchanged { (v : View) → F.view fs.old ≡ Some v → IsErrOf result err.NoMemory → F.view fs.new ≡ Some v }
        ensures stepped { IsStepped self.old result self.new }
        ensures falls { OnMore result (left self.new < left self.old) }
        ensures time { Elapses (F.clock fs.old) (F.clock fs.new) (F.was fs.old) (F.was fs.new) (F.view fs.new) }
        ensures ticks { OnOk result (Takes self.old.phase (F.clock fs.old) (F.clock fs.new)) }
        ensures cause { HasCause (F.faults fs.old) (F.faults fs.new) result }
        ensures room { KeepsRoom self.old.phase (F.spare fs.old) (F.spare fs.new) result }
    {
        let LinkPhase::Clear(removing) = &mut self.phase else {
            unreachable!()
        };
        match removing.step(fs)? {
            StepResult::More => Ok(StepResult::More),
            StepResult::Done(()) => {
                self.phase = LinkPhase::Make;
                Ok(StepResult::More)
            }
        }
    }

    // makes the link at the staging path
    fn make<F: Fs>(&mut self, fs: &mut F) -> Result<StepResult<()>, FsErr>
        requires phase { self.old.phase ≡ phase.Make }
        requires needs { (v : View) → F.view fs.old ≡ Some v → Needs self.old v }
        ensures writes { (v : View) → F.view fs.old ≡ Some v → Told (F.view fs.new) (λ w. Writes (WritesOf self.old v) v w) }
        ensures after { (v : View) → F.view fs.old ≡ Some v → OnOk result (Told (F.view fs.new) (λ w. Needs self.new w)) }
        ensures fails { (v : View) → F.view fs.old ≡ Some v → IfErr result (Refuses self.old v) }
        ensures unchanged { (v : View) → F.view fs.old ≡ Some v → IsErrOf result err.NoMemory → F.view fs.new ≡ Some v }
        ensures stepped { IsStepped self.old result self.new }
        ensures falls { OnMore result (left self.new < left self.old) }
        ensures time { Elapses (F.clock fs.old) (F.clock fs.new) (F.was fs.old) (F.was fs.new) (F.view fs.new) }
        ensures ticks { OnOk result (Takes self.old.phase (F.clock fs.old) (F.clock fs.new)) }
        ensures cause { HasCause (F.faults fs.old) (F.faults fs.new) result }
        ensures room { KeepsRoom self.old.phase (F.spare fs.old) (F.spare fs.new) result }
    {
        fs.symlink(&self.stage, &self.target, &link_meta(self.alloc))?;
        self.phase = LinkPhase::Replace;
        Ok(StepResult::More)
    }

    // renames the link to its path
    fn replace<F: Fs>(&mut self, fs: &mut F) -> Result<StepResult<()>, FsErr>
        requires phase { self.old.phase ≡ phase.Replace }
        requires needs { (v : View) → F.view fs.old ≡ Some v → Needs self.old v }
        ensures writes { (v : View) → F.view fs.old ≡ Some v → Told (F.view fs.new) (λ w. Writes (WritesOf self.old v) v w) }
        ensures after { (v : View) → F.view fs.old ≡ Some v → OnOk result (Told (F.view fs.new) (λ w. Needs self.new w)) }
        ensures fails { (v : View) → F.view fs.old ≡ Some v → IfErr result (Refuses self.old v) }
        ensures unchanged { (v : View) → F.view fs.old ≡ Some v → IsErrOf result err.NoMemory → F.view fs.new ≡ Some v }
        ensures stepped { IsStepped self.old result self.new }
        ensures falls { OnMore result (left self.new < left self.old) }
        ensures time { Elapses (F.clock fs.old) (F.clock fs.new) (F.was fs.old) (F.was fs.new) (F.view fs.new) }
        ensures ticks { OnOk result (Takes self.old.phase (F.clock fs.old) (F.clock fs.new)) }
        ensures cause { HasCause (F.faults fs.old) (F.faults fs.new) result }
        ensures room { KeepsRoom self.old.phase (F.spare fs.old) (F.spare fs.new) result }
    {
        fs.reserve(2)?;
        fs.rename(&self.stage, &self.at)?;
        self.phase = LinkPhase::Ended;
        Ok(StepResult::Done(()))
    }
}
