//! The steps that stage a file or a link.
ghost use Rattle.std.specs.Prelude.{◌≡◌, ◌<◌, Some, OnOk, IfErr};
ghost use Rattle.fs_trait.specs.View.{View};
ghost use Rattle.fs_trait.specs.Effect.{Elapses, HasCause};
ghost use Rattle.host_edit.specs.declared.phase.Phase.TheVariants as phase;
ghost use Rattle.host_edit.specs.Editing.{IsStepped, KeepsRoom, OfPhase, OnMore, Takes, left};
ghost use Rattle.host_edit.specs.Steps.{IsToldStep, Needs};

use super::{EditTask, Turn};
use crate::change::Change;
use crate::phase::Phase;
use fs_trait::{Fs, FsErr, StepResult};

impl EditTask {
    // a step of staging the file
    pub(super) fn stage<F: Fs>(&mut self, fs: &mut F) -> Result<Turn, FsErr>
        requires phase { self.old.phase ≡ phase.Stage }
        requires needs { (v : View) → F.view fs.old ≡ Some v → Needs self.old v }
        ensures told { (v : View) → F.view fs.old ≡ Some v → IsToldStep self.old self.new v result (F.view fs.new) }
        ensures named { IfErr result (OfPhase self.old.phase) }
        ensures stepped { IsStepped self.old result self.new }
        ensures falls { OnMore result (left self.new < left self.old) }
        ensures time { Elapses (F.clock fs.old) (F.clock fs.new) (F.was fs.old) (F.was fs.new) (F.view fs.new) }
        ensures ticks { OnOk result (Takes self.old (F.clock fs.old) (F.clock fs.new)) }
        ensures cause { HasCause (F.faults fs.old) (F.faults fs.new) result }
        ensures room { KeepsRoom self.old.phase (F.spare fs.old) (F.spare fs.new) result }
    {
        let Change::File(file) = &mut self.change else {
            unreachable!()
        };
        match file.step(fs)? {
            StepResult::More => Ok(StepResult::More),
            StepResult::Done(()) => {
                self.phase = Phase::Look;
                Ok(StepResult::More)
            }
        }
    }

    pub(super) fn clear<F: Fs>(&mut self, fs: &mut F) -> Result<Turn, FsErr>
        requires phase { self.old.phase ≡ phase.Clear }
        requires needs { (v : View) → F.view fs.old ≡ Some v → Needs self.old v }
        ensures told { (v : View) → F.view fs.old ≡ Some v → IsToldStep self.old self.new v result (F.view fs.new) }
        ensures named { IfErr result (OfPhase self.old.phase) }
        ensures stepped { IsStepped self.old result self.new }
        ensures falls { OnMore result (left self.new < left self.old) }
        ensures time { Elapses (F.clock fs.old) (F.clock fs.new) (F.was fs.old) (F.was fs.new) (F.view fs.new) }
        ensures ticks { OnOk result (Takes self.old (F.clock fs.old) (F.clock fs.new)) }
        ensures cause { HasCause (F.faults fs.old) (F.faults fs.new) result }
        ensures room { KeepsRoom self.old.phase (F.spare fs.old) (F.spare fs.new) result }
    {
        if fs.stat(&self.stage)?.is_some() {
            fs.unlink(&self.stage)?;
        }
        self.phase = Phase::Link;
        Ok(StepResult::More)
    }

    pub(super) fn link<F: Fs>(&mut self, fs: &mut F) -> Result<Turn, FsErr>
        requires phase { self.old.phase ≡ phase.Link }
        requires needs { (v : View) → F.view fs.old ≡ Some v → Needs self.old v }
        ensures told { (v : View) → F.view fs.old ≡ Some v → IsToldStep self.old self.new v result (F.view fs.new) }
        ensures named { IfErr result (OfPhase self.old.phase) }
        ensures stepped { IsStepped self.old result self.new }
        ensures falls { OnMore result (left self.new < left self.old) }
        ensures time { Elapses (F.clock fs.old) (F.clock fs.new) (F.was fs.old) (F.was fs.new) (F.view fs.new) }
        ensures ticks { OnOk result (Takes self.old (F.clock fs.old) (F.clock fs.new)) }
        ensures cause { HasCause (F.faults fs.old) (F.faults fs.new) result }
        ensures room { KeepsRoom self.old.phase (F.spare fs.old) (F.spare fs.new) result }
    {
        let Change::Link(meta, target) = &self.change else {
            unreachable!()
        };
        fs.symlink(&self.stage, target, meta)?;
        self.phase = Phase::Look;
        Ok(StepResult::More)
    }
}
