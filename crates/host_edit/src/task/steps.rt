//! The steps of an edit, one function a phase.
ghost use Rattle.std.specs.Prelude.{◌≡◌, ◌<◌, Some, OnOk, IfErr};
ghost use Rattle.fs_trait.specs.View.{View};
ghost use Rattle.fs_trait.specs.Effect.{Elapses, HasCause};
ghost use Rattle.host_edit.specs.declared.phase.Phase.TheVariants as phase;
ghost use Rattle.host_edit.specs.Editing.{IsStepped, KeepsRoom, OfPhase, OnMore, Takes, left};
ghost use Rattle.host_edit.specs.Steps.{IsToldStep, Needs};

use super::{EditTask, Turn};
use crate::phase::Phase;
use crate::refusal::EditRefusal;
use crate::there::look;
use crate::verdict::{Verdict, judge};
use fs_trait::{Fs, FsErr, StepResult};
use ost_types::TryCopy;

impl EditTask {
    /// Does the next step: at most one changing call and two reading ones. It is done once the edit outlasts a crash, or with why it
    /// is refused. After an error and after a refusal the task is unchanged, so that the step may be tried again.
    pub fn step<F: Fs>(&mut self, fs: &mut F) -> Result<Turn, FsErr>
        requires { (v : View) → F.view fs.old ≡ Some v → Needs self.old v }
        ensures told { (v : View) → F.view fs.old ≡ Some v → IsToldStep self.old self.new v result (F.view fs.new) }
        ensures named { IfErr result (OfPhase self.old.phase) }
        ensures stepped { IsStepped self.old result self.new }
        ensures falls { OnMore result (left self.new < left self.old) }
        ensures time { Elapses (F.clock fs.old) (F.clock fs.new) (F.was fs.old) (F.was fs.new) (F.view fs.new) }
        ensures ticks { OnOk result (Takes self.old (F.clock fs.old) (F.clock fs.new)) }
        ensures cause { HasCause (F.faults fs.old) (F.faults fs.new) result }
        ensures room { KeepsRoom self.old.phase (F.spare fs.old) (F.spare fs.new) result }
    {
        match self.phase {
            Phase::Stage => self.stage(fs),
            Phase::Clear => self.clear(fs),
            Phase::Link => self.link(fs),
            Phase::Look => self.look(fs),
            Phase::Replace => self.replace(fs),
            Phase::MakeFolder => self.make_folder(fs),
            Phase::Unlink => self.unlink(fs),
            Phase::RemoveFolder => self.remove_folder(fs),
            Phase::Sync => self.sync(fs),
            Phase::Ended => Ok(StepResult::Done(Ok(()))),
        }
    }

    fn look<F: Fs>(&mut self, fs: &mut F) -> Result<Turn, FsErr>
        requires phase { self.old.phase ≡ phase.Look }
        requires needs { (v : View) → F.view fs.old ≡ Some v → Needs self.old v }
        ensures told { (v : View) → F.view fs.old ≡ Some v → IsToldStep self.old self.new v result (F.view fs.new) }
        ensures named { IfErr result (OfPhase self.old.phase) }
        ensures stepped { IsStepped self.old result self.new }
        ensures falls { OnMore result (left self.new < left self.old) }
        ensures time { Elapses (F.clock fs.old) (F.clock fs.new) (F.was fs.old) (F.was fs.new) (F.view fs.new) }
        ensures ticks { OnOk result (Takes self.old (F.clock fs.old) (F.clock fs.new)) }
        ensures cause { HasCause (F.faults fs.old) (F.faults fs.new) result }
        ensures room { KeepsRoom self.old.phase (F.spare fs.old) (F.spare fs.new) result }
    {
        let there = look(fs, &self.folder, &self.at)?;
        let refusal = match judge(&self.change, there) {
            Verdict::Goes(phase) => {
                self.phase = phase;
                return Ok(StepResult::More);
            }
            Verdict::NoParent => EditRefusal::NoParent(self.path.copy()?),
            Verdict::NoPath => EditRefusal::NoPath(self.path.copy()?),
            Verdict::NotEmpty => EditRefusal::NotEmpty(self.path.copy()?),
            Verdict::KindClash => EditRefusal::KindClash(self.path.copy()?),
        };
        Ok(StepResult::Done(Err(refusal)))
    }
}
