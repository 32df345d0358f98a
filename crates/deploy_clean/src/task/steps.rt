//! The steps, one function a phase.
ghost use Rattle.std.specs.Prelude.{◌≡◌, ◌≤◌, ◌<◌, ◌+◌, Some, OnOk, IfErr};
ghost use Rattle.fs_trait.specs.View.{View};
ghost use Rattle.fs_trait.specs.Effect.{Elapses, HasCause, IsQuiet, OfEmptying};
ghost use Rattle.fs_trait.specs.declared.types.FsErr.TheVariants as err;
ghost use Rattle.checkout.specs.Remove.{OnMore};
ghost use Rattle.deploy_clean.specs.declared.phase.Phase.TheVariants as phase;
ghost use Rattle.deploy_clean.specs.Cleaning.{IsNextPath, IsRemoving, IsSeeing, IsStepped, Takes, in_phase, left, passed_by, removing_from};
ghost use Rattle.deploy_clean.specs.Steps.{IsToldStep, Needs};

use super::CleanTask;
use crate::list::{names_in, next_last};
use crate::phase::Phase;
use crate::stateroot::{NextName, open_stateroot};
use checkout::RemoveTask;
use fs_trait::{Fs, FsErr, StepResult};
use ost_types::FsPath;
use repo_layout::{Folder, folder_path};
use std::mem;

impl CleanTask {
    /// Does the next step: at most one changing call and two reading ones. It is done once nothing stands at the path of a deployment
    /// that isn't listed, nor at that of its origin file. After an error the task is unchanged, so that the step may be tried again.
    pub fn step<F: Fs>(&mut self, fs: &mut F) -> Result<StepResult<()>, FsErr>
        requires { (v : View) → F.view fs.old ≡ Some v → Needs self.old v }
        ensures told { (v : View) → F.view fs.old ≡ Some v → IsToldStep self.old self.new v result (F.view fs.new) }
        ensures named { IfErr result OfEmptying }
        ensures stepped { IsStepped self.old result self.new }
        ensures falls { OnMore result (left self.new < left self.old) }
        ensures time { Elapses (F.clock fs.old) (F.clock fs.new) (F.was fs.old) (F.was fs.new) (F.view fs.new) }
        ensures ticks { OnOk result (Takes self.old.phase (F.clock fs.old) (F.clock fs.new)) }
        ensures cause { HasCause (F.faults fs.old) (F.faults fs.new) result }
        ensures room { F.spare fs.old ≤ F.spare fs.new + 1 }
    {
        match &self.phase {
            Phase::Begin => self.begin(fs),
            Phase::Open => self.open(fs),
            Phase::See(_) => self.see(),
            Phase::Remove(..) => self.remove(fs),
            Phase::Ended => Ok(StepResult::Done(())),
        }
    }

    // lists the stateroots
    fn begin<F: Fs>(&mut self, fs: &mut F) -> Result<StepResult<()>, FsErr>
        requires phase { self.old.phase ≡ phase.Begin }
        requires needs { (v : View) → F.view fs.old ≡ Some v → Needs self.old v }
        ensures told { (v : View) → F.view fs.old ≡ Some v → IsToldStep self.old self.new v result (F.view fs.new) }
        ensures named { IfErr result OfEmptying }
        ensures stepped { IsStepped self.old result self.new }
        ensures falls { OnMore result (left self.new < left self.old) }
        ensures quiet { IsQuiet (F.clock fs.old) (F.clock fs.new) (F.was fs.old) (F.was fs.new) (F.view fs.old) (F.view fs.new) }
        ensures cause { HasCause (F.faults fs.old) (F.faults fs.new) result }
        ensures room { F.spare fs.old ≤ F.spare fs.new }
    {
        let at = folder_path(self.alloc, Folder::Deploy)?;
        let names = names_in(self.alloc, fs, &at)?;
        self.stateroots = next_last(names);
        self.phase = Phase::Open;
        Ok(StepResult::More)
    }

    // lists the deployments of the next stateroot
    fn open<F: Fs>(&mut self, fs: &mut F) -> Result<StepResult<()>, FsErr>
        requires phase { self.old.phase ≡ phase.Open }
        requires needs { (v : View) → F.view fs.old ≡ Some v → Needs self.old v }
        ensures told { (v : View) → F.view fs.old ≡ Some v → IsToldStep self.old self.new v result (F.view fs.new) }
        ensures named { IfErr result OfEmptying }
        ensures stepped { IsStepped self.old result self.new }
        ensures falls { OnMore result (left self.new < left self.old) }
        ensures quiet { IsQuiet (F.clock fs.old) (F.clock fs.new) (F.was fs.old) (F.was fs.new) (F.view fs.old) (F.view fs.new) }
        ensures cause { HasCause (F.faults fs.old) (F.faults fs.new) result }
        ensures room { F.spare fs.old ≤ F.spare fs.new }
    {
        let Some(name) = self.stateroots.last() else {
            self.phase = Phase::Ended;
            return Ok(StepResult::Done(()));
        };
        let opened = open_stateroot(self.alloc, fs, name)?;
        self.stateroots.pop();
        match opened {
            None => Ok(StepResult::More),
            Some(stateroot) => {
                self.phase = Phase::See(stateroot);
                Ok(StepResult::More)
            }
        }
    }

    // sees to the next name of the stateroot in hand
    fn see(&mut self) -> Result<StepResult<()>, FsErr>
        requires { IsSeeing self.old.phase }
        ensures told { (v : View) → Needs self.old v → IsToldStep self.old self.new v result (Some v) }
        ensures err { IfErr result (λ e. e ≡ err.NoMemory) }
        ensures stepped { IsStepped self.old result self.new }
        ensures falls { OnMore result (left self.new < left self.old) }
    {
        let Phase::See(stateroot) = &mut self.phase else {
            unreachable!()
        };
        let next = stateroot.next_name(self.alloc, self.listed.as_slice())?;
        match next {
            NextName::Nothing => {
                self.phase = Phase::Open;
                Ok(StepResult::More)
            }
            NextName::Other => {
                stateroot.pass();
                Ok(StepResult::More)
            }
            NextName::Unlisted(at) => {
                self.begin_removal(at);
                Ok(StepResult::More)
            }
        }
    }

    // the removal of what stands at the path of the next name begins
    fn begin_removal(&mut self, at: FsPath)
        requires { IsNextPath at self.old }
        ensures { self.new ≡ in_phase (removing_from at self.old.phase) self.old }
    {
        match mem::replace(&mut self.phase, Phase::Open) {
            Phase::See(stateroot) => {
                self.phase = Phase::Remove(stateroot, RemoveTask::new(self.alloc, at));
            }
            _ => unreachable!(),
        }
    }

    // removes what stands under the next name
    fn remove<F: Fs>(&mut self, fs: &mut F) -> Result<StepResult<()>, FsErr>
        requires phase { IsRemoving self.old.phase }
        requires needs { (v : View) → F.view fs.old ≡ Some v → Needs self.old v }
        ensures told { (v : View) → F.view fs.old ≡ Some v → IsToldStep self.old self.new v result (F.view fs.new) }
        ensures named { IfErr result OfEmptying }
        ensures stepped { IsStepped self.old result self.new }
        ensures falls { OnMore result (left self.new < left self.old) }
        ensures time { Elapses (F.clock fs.old) (F.clock fs.new) (F.was fs.old) (F.was fs.new) (F.view fs.new) }
        ensures ticks { OnOk result (Takes self.old.phase (F.clock fs.old) (F.clock fs.new)) }
        ensures cause { HasCause (F.faults fs.old) (F.faults fs.new) result }
        ensures room { F.spare fs.old ≤ F.spare fs.new + 1 }
    {
        let Phase::Remove(_, removing) = &mut self.phase else {
            unreachable!()
        };
        match removing.step(fs)? {
            StepResult::More => Ok(StepResult::More),
            StepResult::Done(()) => {
                self.end_removal();
                Ok(StepResult::More)
            }
        }
    }

    // nothing stands under the next name any more
    fn end_removal(&mut self)
        requires { IsRemoving self.old.phase }
        ensures { self.new ≡ in_phase (passed_by self.old.phase) self.old }
    {
        match mem::replace(&mut self.phase, Phase::Open) {
            Phase::Remove(mut stateroot, _) => {
                stateroot.pass();
                self.phase = Phase::See(stateroot);
            }
            _ => unreachable!(),
        }
    }
}
