//! The steps that make the change, and the sync behind it.
ghost use Rattle.std.specs.Prelude.{◌≡◌, ◌<◌, Some, OnOk, IfErr};
ghost use Rattle.fs_trait.specs.View.{View};
ghost use Rattle.fs_trait.specs.Effect.{Elapses, HasCause};
ghost use Rattle.host_edit.specs.declared.phase.Phase.TheVariants as phase;
ghost use Rattle.host_edit.specs.Editing.{IsStepped, KeepsRoom, OfPhase, OnMore, Takes, left};
ghost use Rattle.host_edit.specs.Steps.{IsToldStep, Needs};

use super::{EditTask, Turn};
use crate::change::Change;
use crate::phase::Phase;
use fs_trait::{Fs, FsErr, StepResult};

impl EditTask {
    // shows what is staged
    pub(super) fn replace<F: Fs>(&mut self, fs: &mut F) -> Result<Turn, FsErr>
        requires phase { self.old.phase ≡ phase.Replace }
        requires needs { (v : View) → F.view fs.old ≡ Some v → Needs self.old v }
        ensures told { (v : View) → F.view fs.old ≡ Some v → IsToldStep self.old self.new v result (F.view fs.new) }
        ensures named { IfErr result (OfPhase self.old.phase) }
        ensures stepped { IsStepped self.old result self.new }
        ensures falls { OnMore result (left self.new < left self.old) }
        ensures time { Elapses (F.clock fs.old) (F.clock fs.new) (F.was fs.old) (F.was fs.new) (F.view fs.new) }
        ensures ticks { OnOk result (Takes self.old (F.clock fs.old) (F.clock fs.new)) }
        ensures cause { HasCause (F.faults fs.old) (F.faults fs.new) result }
        ensures room { KeepsRoom self.old.phase (F.spare fs.old) (F.spare fs.new) result }
    {
        fs.reserve(2)?;
        fs.rename(&self.stage, &self.at)?;
        self.phase = Phase::Sync;
        Ok(StepResult::More)
    }

    pub(super) fn make_folder<F: Fs>(&mut self, fs: &mut F) -> Result<Turn, FsErr>
        requires phase { self.old.phase ≡ phase.MakeFolder }
        requires needs { (v : View) → F.view fs.old ≡ Some v → Needs self.old v }
        ensures told { (v : View) → F.view fs.old ≡ Some v → IsToldStep self.old self.new v result (F.view fs.new) }
        ensures named { IfErr result (OfPhase self.old.phase) }
        ensures stepped { IsStepped self.old result self.new }
        ensures falls { OnMore result (left self.new < left self.old) }
        ensures time { Elapses (F.clock fs.old) (F.clock fs.new) (F.was fs.old) (F.was fs.new) (F.view fs.new) }
        ensures ticks { OnOk result (Takes self.old (F.clock fs.old) (F.clock fs.new)) }
        ensures cause { HasCause (F.faults fs.old) (F.faults fs.new) result }
        ensures room { KeepsRoom self.old.phase (F.spare fs.old) (F.spare fs.new) result }
    {
        let Change::Folder(meta) = &self.change else {
            unreachable!()
        };
        fs.reserve(2)?;
        fs.mkdir(&self.at, meta)?;
        self.phase = Phase::Sync;
        Ok(StepResult::More)
    }

    pub(super) fn unlink<F: Fs>(&mut self, fs: &mut F) -> Result<Turn, FsErr>
        requires phase { self.old.phase ≡ phase.Unlink }
        requires needs { (v : View) → F.view fs.old ≡ Some v → Needs self.old v }
        ensures told { (v : View) → F.view fs.old ≡ Some v → IsToldStep self.old self.new v result (F.view fs.new) }
        ensures named { IfErr result (OfPhase self.old.phase) }
        ensures stepped { IsStepped self.old result self.new }
        ensures falls { OnMore result (left self.new < left self.old) }
        ensures time { Elapses (F.clock fs.old) (F.clock fs.new) (F.was fs.old) (F.was fs.new) (F.view fs.new) }
        ensures ticks { OnOk result (Takes self.old (F.clock fs.old) (F.clock fs.new)) }
        ensures cause { HasCause (F.faults fs.old) (F.faults fs.new) result }
        ensures room { KeepsRoom self.old.phase (F.spare fs.old) (F.spare fs.new) result }
    {
        fs.reserve(2)?;
        fs.unlink(&self.at)?;
        self.phase = Phase::Sync;
        Ok(StepResult::More)
    }

    pub(super) fn remove_folder<F: Fs>(&mut self, fs: &mut F) -> Result<Turn, FsErr>
        requires phase { self.old.phase ≡ phase.RemoveFolder }
        requires needs { (v : View) → F.view fs.old ≡ Some v → Needs self.old v }
        ensures told { (v : View) → F.view fs.old ≡ Some v → IsToldStep self.old self.new v result (F.view fs.new) }
        ensures named { IfErr result (OfPhase self.old.phase) }
        ensures stepped { IsStepped self.old result self.new }
        ensures falls { OnMore result (left self.new < left self.old) }
        ensures time { Elapses (F.clock fs.old) (F.clock fs.new) (F.was fs.old) (F.was fs.new) (F.view fs.new) }
        ensures ticks { OnOk result (Takes self.old (F.clock fs.old) (F.clock fs.new)) }
        ensures cause { HasCause (F.faults fs.old) (F.faults fs.new) result }
        ensures room { KeepsRoom self.old.phase (F.spare fs.old) (F.spare fs.new) result }
    {
        fs.reserve(2)?;
        fs.rmdir(&self.at)?;
        self.phase = Phase::Sync;
        Ok(StepResult::More)
    }

    pub(super) fn sync<F: Fs>(&mut self, fs: &mut F) -> Result<Turn, FsErr>
        requires phase { self.old.phase ≡ phase.Sync }
        requires needs { (v : View) → F.view fs.old ≡ Some v → Needs self.old v }
        ensures told { (v : View) → F.view fs.old ≡ Some v → IsToldStep self.old self.new v result (F.view fs.new) }
        ensures named { IfErr result (OfPhase self.old.phase) }
        ensures stepped { IsStepped self.old result self.new }
        ensures falls { OnMore result (left self.new < left self.old) }
        ensures time { Elapses (F.clock fs.old) (F.clock fs.new) (F.was fs.old) (F.was fs.new) (F.view fs.new) }
        ensures ticks { OnOk result (Takes self.old (F.clock fs.old) (F.clock fs.new)) }
        ensures cause { HasCause (F.faults fs.old) (F.faults fs.new) result }
        ensures room { KeepsRoom self.old.phase (F.spare fs.old) (F.spare fs.new) result }
    {
        fs.sync_dir(&self.folder)?;
        self.phase = Phase::Ended;
        Ok(StepResult::Done(Ok(())))
    }
}
