//! The steps, one function a phase.
ghost use Rattle.std.specs.Prelude.{◌≡◌, Some, OnOk, IfErr};
ghost use Rattle.fs_trait.specs.View.{View};
ghost use Rattle.fs_trait.specs.Effect.{Elapses, HasCause};
ghost use Rattle.fs_trait.specs.declared.types.FsErr.TheVariants as err;
ghost use Rattle.tree_scan.specs.Scanning.{OnMore};
ghost use Rattle.deploy_task.specs.declared.phase.Phase.TheVariants as phase;
ghost use Rattle.deploy_task.specs.Phases.{IsBuild, IsClean, IsEtc, IsSource, IsSwap};
ghost use Rattle.deploy_task.specs.Deploying.{BeginsEtc, Falls, IsStepped, KeepsRoom, Takes};
ghost use Rattle.deploy_task.specs.Steps.{IsToldStep, Needs};

use super::DeployTask;
use crate::ids::first_of;
use crate::items::{new_items, new_of};
use crate::phase::{Phase, go_on};
use crate::refusal::DeployRefusal;
use crate::same::is_same_map;
use boot_swap::SwapTask;
use deploy_etc::defaults_of;
use deployment_build::{DeploymentBuild, etc_path};
use fs_trait::{Fs, FsErr, StepResult};
use ost_types::{NoMemory, TryCopy};
use repo_layout::deploy_path;
use tree_scan::TreeScan;
use tree_walk::WalkTask;

/// What a step came to.
type Turn = StepResult<Result<(), DeployRefusal>>;

impl DeployTask {
    /// Does the next step: at most one changing call, and two reading ones. After an error the task is unchanged, so that the step may
    /// be tried again. After a refusal nothing but what no list named is gone.
    pub fn step<F: Fs>(&mut self, fs: &mut F) -> Result<Turn, FsErr>
        requires { (v : View) → F.view fs.old ≡ Some v → Needs self.old v }
        ensures told { (v : View) → F.view fs.old ≡ Some v → IsToldStep self.old self.new v result (F.view fs.new) }
        ensures stepped { IsStepped self.old result self.new }
        ensures falls { OnMore result (Falls self.new.phase self.old.phase) }
        ensures time { Elapses (F.clock fs.old) (F.clock fs.new) (F.was fs.old) (F.was fs.new) (F.view fs.new) }
        ensures ticks { OnOk result (Takes self.old.phase (F.clock fs.old) (F.clock fs.new)) }
        ensures cause { HasCause (F.faults fs.old) (F.faults fs.new) result }
        ensures room { KeepsRoom self.old.phase (F.spare fs.old) (F.spare fs.new) result }
    {
        match &self.phase {
            Phase::Clean(_) => self.clean(fs),
            Phase::Choose => self.choose(),
            Phase::Source(_) => self.walk_source(fs),
            Phase::Etc(..) => self.read_etc(fs),
            Phase::BeginBuild => self.begin_build(),
            Phase::Build(_) => self.build(fs),
            Phase::BeginSwap => self.begin_swap(),
            Phase::Swap(_) => self.swap(fs),
            Phase::Ended => Ok(StepResult::Done(Ok(()))),
        }
    }

    // removes what the list doesn't name
    fn clean<F: Fs>(&mut self, fs: &mut F) -> Result<Turn, FsErr>
        requires phase { IsClean self.old.phase }
        requires needs { (v : View) → F.view fs.old ≡ Some v → Needs self.old v }
        ensures told { (v : View) → F.view fs.old ≡ Some v → IsToldStep self.old self.new v result (F.view fs.new) }
        ensures stepped { IsStepped self.old result self.new }
        ensures falls { OnMore result (Falls self.new.phase self.old.phase) }
        ensures time { Elapses (F.clock fs.old) (F.clock fs.new) (F.was fs.old) (F.was fs.new) (F.view fs.new) }
        ensures ticks { OnOk result (Takes self.old.phase (F.clock fs.old) (F.clock fs.new)) }
        ensures cause { HasCause (F.faults fs.old) (F.faults fs.new) result }
        ensures room { KeepsRoom self.old.phase (F.spare fs.old) (F.spare fs.new) result }
    {
        let Phase::Clean(clean) = &mut self.phase else {
            unreachable!()
        };
        match clean.step(fs)? {
            StepResult::More => Ok(StepResult::More),
            StepResult::Done(()) => {
                go_on(&mut self.phase, Phase::Choose);
                Ok(StepResult::More)
            }
        }
    }

    // sees whether there is a place, and which deployment's configuration is taken over
    fn choose(&mut self) -> Result<Turn, FsErr>
        requires { self.old.phase ≡ phase.Choose }
        ensures told { (v : View) → Needs self.old v → IsToldStep self.old self.new v result (Some v) }
        ensures err { IfErr result (λ e. e ≡ err.NoMemory) }
        ensures stepped { IsStepped self.old result self.new }
        ensures falls { OnMore result (Falls self.new.phase self.old.phase) }
    {
        if self.kept.len() >= 8 {
            return Ok(StepResult::Done(Err(DeployRefusal::TooManyDeps)));
        }
        match first_of(&self.deploy.items, &self.deploy.os) {
            None => {
                go_on(&mut self.phase, Phase::BeginBuild);
                Ok(StepResult::More)
            }
            Some(source) => {
                let walk = WalkTask::new(self.alloc, source.commit, self.deploy.limits);
                go_on(&mut self.phase, Phase::Source(walk));
                Ok(StepResult::More)
            }
        }
    }

    // walks the tree of the deployment from which the configuration is taken over
    fn walk_source<F: Fs>(&mut self, fs: &mut F) -> Result<Turn, FsErr>
        requires phase { IsSource self.old.phase }
        requires needs { (v : View) → F.view fs.old ≡ Some v → Needs self.old v }
        ensures told { (v : View) → F.view fs.old ≡ Some v → IsToldStep self.old self.new v result (F.view fs.new) }
        ensures stepped { IsStepped self.old result self.new }
        ensures falls { OnMore result (Falls self.new.phase self.old.phase) }
        ensures time { Elapses (F.clock fs.old) (F.clock fs.new) (F.was fs.old) (F.was fs.new) (F.view fs.new) }
        ensures ticks { OnOk result (Takes self.old.phase (F.clock fs.old) (F.clock fs.new)) }
        ensures cause { HasCause (F.faults fs.old) (F.faults fs.new) result }
        ensures room { KeepsRoom self.old.phase (F.spare fs.old) (F.spare fs.new) result }
    {
        let Phase::Source(walk) = &mut self.phase else {
            unreachable!()
        };
        match walk.step(fs)? {
            StepResult::More => Ok(StepResult::More),
            StepResult::Done(Err(fault)) => Ok(StepResult::Done(Err(DeployRefusal::Source(fault)))),
            StepResult::Done(Ok(())) => Ok(self.begin_etc()?),
        }
    }

    // its tree is known: its `etc` is to be read
    fn begin_etc(&mut self) -> Result<Turn, NoMemory>
        requires { IsSource self.old.phase }
        ensures { BeginsEtc self.old result self.new }
    {
        let Phase::Source(walk) = &self.phase else {
            unreachable!()
        };
        let Some(source) = first_of(&self.deploy.items, &self.deploy.os) else {
            unreachable!()
        };
        // both are known to be maps by these
        let _tree = walk.found().as_slice();
        let defaults = defaults_of(self.alloc, walk.found())?;
        let _defaults = defaults.as_slice();
        let folder = deploy_path(self.alloc, &source.os, &source.commit, source.serial)?;
        let etc = etc_path(self.alloc, &folder)?;
        let scan = TreeScan::new(self.alloc, etc, self.deploy.limits);
        go_on(&mut self.phase, Phase::Etc(defaults, scan));
        Ok(StepResult::More)
    }

    // reads the `etc` of that deployment
    fn read_etc<F: Fs>(&mut self, fs: &mut F) -> Result<Turn, FsErr>
        requires phase { IsEtc self.old.phase }
        requires needs { (v : View) → F.view fs.old ≡ Some v → Needs self.old v }
        ensures told { (v : View) → F.view fs.old ≡ Some v → IsToldStep self.old self.new v result (F.view fs.new) }
        ensures stepped { IsStepped self.old result self.new }
        ensures falls { OnMore result (Falls self.new.phase self.old.phase) }
        ensures time { Elapses (F.clock fs.old) (F.clock fs.new) (F.was fs.old) (F.was fs.new) (F.view fs.new) }
        ensures ticks { OnOk result (Takes self.old.phase (F.clock fs.old) (F.clock fs.new)) }
        ensures cause { HasCause (F.faults fs.old) (F.faults fs.new) result }
        ensures room { KeepsRoom self.old.phase (F.spare fs.old) (F.spare fs.new) result }
    {
        let Phase::Etc(defaults, scan) = &mut self.phase else {
            unreachable!()
        };
        match scan.step(fs)? {
            StepResult::More => Ok(StepResult::More),
            StepResult::Done(Err(fault)) => Ok(StepResult::Done(Err(DeployRefusal::Etc(fault)))),
            StepResult::Done(Ok(())) => {
                // known to be a map by this
                let _etc = scan.found().as_slice();
                if !is_same_map(scan.found(), defaults) {
                    return Ok(StepResult::Done(Err(DeployRefusal::EtcChanged)));
                }
                go_on(&mut self.phase, Phase::BeginBuild);
                Ok(StepResult::More)
            }
        }
    }

    // makes ready what builds the new deployment, whose `etc` is what its tree has at `/usr/etc`
    fn begin_build(&mut self) -> Result<Turn, FsErr>
        requires { self.old.phase ≡ phase.BeginBuild }
        ensures told { (v : View) → Needs self.old v → IsToldStep self.old self.new v result (Some v) }
        ensures err { IfErr result (λ e. e ≡ err.NoMemory) }
        ensures stepped { IsStepped self.old result self.new }
        ensures falls { OnMore result (Falls self.new.phase self.old.phase) }
    {
        // known to be a map by this
        let _tree = self.deploy.tree.as_slice();
        let etc = defaults_of(self.alloc, &self.deploy.tree)?;
        let new = new_of(&self.deploy, &self.id, etc)?;
        let build = DeploymentBuild::new(self.alloc, self.deploy.stage.copy()?, new)?;
        go_on(&mut self.phase, Phase::Build(build));
        Ok(StepResult::More)
    }

    // builds it
    fn build<F: Fs>(&mut self, fs: &mut F) -> Result<Turn, FsErr>
        requires phase { IsBuild self.old.phase }
        requires needs { (v : View) → F.view fs.old ≡ Some v → Needs self.old v }
        ensures told { (v : View) → F.view fs.old ≡ Some v → IsToldStep self.old self.new v result (F.view fs.new) }
        ensures stepped { IsStepped self.old result self.new }
        ensures falls { OnMore result (Falls self.new.phase self.old.phase) }
        ensures time { Elapses (F.clock fs.old) (F.clock fs.new) (F.was fs.old) (F.was fs.new) (F.view fs.new) }
        ensures ticks { OnOk result (Takes self.old.phase (F.clock fs.old) (F.clock fs.new)) }
        ensures cause { HasCause (F.faults fs.old) (F.faults fs.new) result }
        ensures room { KeepsRoom self.old.phase (F.spare fs.old) (F.spare fs.new) result }
    {
        let Phase::Build(build) = &mut self.phase else {
            unreachable!()
        };
        match build.step(fs)? {
            StepResult::More => Ok(StepResult::More),
            StepResult::Done(Err(_)) => Ok(StepResult::Done(Err(DeployRefusal::DestExists))),
            StepResult::Done(Ok(())) => {
                go_on(&mut self.phase, Phase::BeginSwap);
                Ok(StepResult::More)
            }
        }
    }

    // makes ready what lets the new list boot
    fn begin_swap(&mut self) -> Result<Turn, FsErr>
        requires { self.old.phase ≡ phase.BeginSwap }
        ensures told { (v : View) → Needs self.old v → IsToldStep self.old self.new v result (Some v) }
        ensures err { IfErr result (λ e. e ≡ err.NoMemory) }
        ensures stepped { IsStepped self.old result self.new }
        ensures falls { OnMore result (Falls self.new.phase self.old.phase) }
    {
        let items = new_items(self.alloc, &self.deploy, &self.id, &self.kept)?;
        let swap = SwapTask::new(self.alloc, items);
        go_on(&mut self.phase, Phase::Swap(swap));
        Ok(StepResult::More)
    }

    // lets it boot
    fn swap<F: Fs>(&mut self, fs: &mut F) -> Result<Turn, FsErr>
        requires phase { IsSwap self.old.phase }
        requires needs { (v : View) → F.view fs.old ≡ Some v → Needs self.old v }
        ensures told { (v : View) → F.view fs.old ≡ Some v → IsToldStep self.old self.new v result (F.view fs.new) }
        ensures stepped { IsStepped self.old result self.new }
        ensures falls { OnMore result (Falls self.new.phase self.old.phase) }
        ensures time { Elapses (F.clock fs.old) (F.clock fs.new) (F.was fs.old) (F.was fs.new) (F.view fs.new) }
        ensures ticks { OnOk result (Takes self.old.phase (F.clock fs.old) (F.clock fs.new)) }
        ensures cause { HasCause (F.faults fs.old) (F.faults fs.new) result }
        ensures room { KeepsRoom self.old.phase (F.spare fs.old) (F.spare fs.new) result }
    {
        let Phase::Swap(swap) = &mut self.phase else {
            unreachable!()
        };
        match swap.step(fs)? {
            StepResult::More => Ok(StepResult::More),
            StepResult::Done(()) => {
                go_on(&mut self.phase, Phase::Ended);
                Ok(StepResult::Done(Ok(())))
            }
        }
    }
}
