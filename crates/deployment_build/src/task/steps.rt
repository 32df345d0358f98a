//! The steps of a build, one function a phase.
ghost use Rattle.std.specs.Prelude.{◌≡◌, ◌≤◌, ◌<◌, ◌+◌, Some, IfOk, IfErr};
ghost use Rattle.fs_trait.specs.View.{View};
ghost use Rattle.fs_trait.specs.Effect.{Elapses, HasCause, OfPlacing};
ghost use Rattle.checkout.specs.CheckoutWork.{OnMore};
ghost use Rattle.deployment_build.specs.declared.phase.BuildPhase.TheVariants as phase;
ghost use Rattle.deployment_build.specs.Work.{IsStepped, Takes, left};
ghost use Rattle.deployment_build.specs.Steps.{IsToldStep, Needs};

use super::DeploymentBuild;
use crate::follows::{goes, goes_turn, puts, puts_turn};
use crate::phase::BuildPhase;
use checkout::DestExists;
use fs_trait::{Fs, FsErr, StepResult};

impl DeploymentBuild {
    /// Does the next step: at most one changing call, and at most two reading ones. After an error the task is unchanged, so that
    /// the step may be tried again. `Missing` comes, too, where no leaf that can be made anew stands at an object's path, or a file
    /// ends early.
    pub fn step<F: Fs>(&mut self, fs: &mut F) -> Result<StepResult<Result<(), DestExists>>, FsErr>
        requires { (v : View) → F.view fs.old ≡ Some v → Needs self.old v }
        ensures told { (v : View) → F.view fs.old ≡ Some v → IsToldStep self.old self.new v result (F.view fs.new) }
        ensures named { IfErr result OfPlacing }
        ensures stepped { IsStepped self.old result self.new }
        ensures falls { OnMore result (left self.new < left self.old) }
        ensures time { Elapses (F.clock fs.old) (F.clock fs.new) (F.was fs.old) (F.was fs.new) (F.view fs.new) }
        ensures ticks { IfOk result (λ turn. Takes self.old turn self.new (F.clock fs.old) (F.clock fs.new)) }
        ensures cause { HasCause (F.faults fs.old) (F.faults fs.new) result }
        ensures room { F.spare fs.old ≤ F.spare fs.new + 1 }
    {
        match self.phase {
            BuildPhase::Checkout => self.check_out(fs),
            BuildPhase::Etc => self.copy_etc(fs),
            BuildPhase::Origin => self.put_origin(fs),
            BuildPhase::Kernel => self.put_kernel(fs),
            BuildPhase::Ended => Ok(StepResult::Done(Ok(()))),
            BuildPhase::Refused => Ok(StepResult::Done(Err(DestExists))),
        }
    }

    // checks the tree out
    fn check_out<F: Fs>(&mut self, fs: &mut F) -> Result<StepResult<Result<(), DestExists>>, FsErr>
        requires phase { self.old.phase ≡ phase.Checkout }
        requires needs { (v : View) → F.view fs.old ≡ Some v → Needs self.old v }
        ensures told { (v : View) → F.view fs.old ≡ Some v → IsToldStep self.old self.new v result (F.view fs.new) }
        ensures named { IfErr result OfPlacing }
        ensures stepped { IsStepped self.old result self.new }
        ensures falls { OnMore result (left self.new < left self.old) }
        ensures time { Elapses (F.clock fs.old) (F.clock fs.new) (F.was fs.old) (F.was fs.new) (F.view fs.new) }
        ensures ticks { IfOk result (λ turn. Takes self.old turn self.new (F.clock fs.old) (F.clock fs.new)) }
        ensures cause { HasCause (F.faults fs.old) (F.faults fs.new) result }
        ensures room { F.spare fs.old ≤ F.spare fs.new + 1 }
    {
        let inner = self.checkout.step(fs)?;
        self.phase = goes(BuildPhase::Checkout, BuildPhase::Etc, &inner);
        Ok(goes_turn(inner))
    }

    // copies what `etc` is to be
    fn copy_etc<F: Fs>(&mut self, fs: &mut F) -> Result<StepResult<Result<(), DestExists>>, FsErr>
        requires phase { self.old.phase ≡ phase.Etc }
        requires needs { (v : View) → F.view fs.old ≡ Some v → Needs self.old v }
        ensures told { (v : View) → F.view fs.old ≡ Some v → IsToldStep self.old self.new v result (F.view fs.new) }
        ensures named { IfErr result OfPlacing }
        ensures stepped { IsStepped self.old result self.new }
        ensures falls { OnMore result (left self.new < left self.old) }
        ensures time { Elapses (F.clock fs.old) (F.clock fs.new) (F.was fs.old) (F.was fs.new) (F.view fs.new) }
        ensures ticks { IfOk result (λ turn. Takes self.old turn self.new (F.clock fs.old) (F.clock fs.new)) }
        ensures cause { HasCause (F.faults fs.old) (F.faults fs.new) result }
        ensures room { F.spare fs.old ≤ F.spare fs.new + 1 }
    {
        let inner = self.etc.step(fs)?;
        self.phase = goes(BuildPhase::Etc, BuildPhase::Origin, &inner);
        Ok(goes_turn(inner))
    }

    // puts the origin file
    fn put_origin<F: Fs>(&mut self, fs: &mut F) -> Result<StepResult<Result<(), DestExists>>, FsErr>
        requires phase { self.old.phase ≡ phase.Origin }
        requires needs { (v : View) → F.view fs.old ≡ Some v → Needs self.old v }
        ensures told { (v : View) → F.view fs.old ≡ Some v → IsToldStep self.old self.new v result (F.view fs.new) }
        ensures named { IfErr result OfPlacing }
        ensures stepped { IsStepped self.old result self.new }
        ensures falls { OnMore result (left self.new < left self.old) }
        ensures time { Elapses (F.clock fs.old) (F.clock fs.new) (F.was fs.old) (F.was fs.new) (F.view fs.new) }
        ensures ticks { IfOk result (λ turn. Takes self.old turn self.new (F.clock fs.old) (F.clock fs.new)) }
        ensures cause { HasCause (F.faults fs.old) (F.faults fs.new) result }
        ensures room { F.spare fs.old ≤ F.spare fs.new + 1 }
    {
        let inner = self.origin.step(fs)?;
        self.phase = puts(BuildPhase::Origin, BuildPhase::Kernel, &inner);
        Ok(StepResult::More)
    }

    // puts the copies of the kernel
    fn put_kernel<F: Fs>(&mut self, fs: &mut F) -> Result<StepResult<Result<(), DestExists>>, FsErr>
        requires phase { self.old.phase ≡ phase.Kernel }
        requires needs { (v : View) → F.view fs.old ≡ Some v → Needs self.old v }
        ensures told { (v : View) → F.view fs.old ≡ Some v → IsToldStep self.old self.new v result (F.view fs.new) }
        ensures named { IfErr result OfPlacing }
        ensures stepped { IsStepped self.old result self.new }
        ensures falls { OnMore result (left self.new < left self.old) }
        ensures time { Elapses (F.clock fs.old) (F.clock fs.new) (F.was fs.old) (F.was fs.new) (F.view fs.new) }
        ensures ticks { IfOk result (λ turn. Takes self.old turn self.new (F.clock fs.old) (F.clock fs.new)) }
        ensures cause { HasCause (F.faults fs.old) (F.faults fs.new) result }
        ensures room { F.spare fs.old ≤ F.spare fs.new + 1 }
    {
        let inner = self.kernel.step(fs)?;
        self.phase = puts(BuildPhase::Kernel, BuildPhase::Ended, &inner);
        Ok(puts_turn(&inner))
    }
}
