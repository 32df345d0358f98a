//! The steps of putting a kernel's copies, one function a phase.
ghost use Rattle.std.specs.Prelude.{◌≡◌, ◌≤◌, ◌<◌, ◌+◌, Some, OnOk, IfErr};
ghost use Rattle.fs_trait.specs.View.{View};
ghost use Rattle.fs_trait.specs.Effect.{Elapses, HasCause, OfPlacing};
ghost use Rattle.fs_trait.specs.declared.task.StepResult.TheVariants as turn;
ghost use Rattle.file_copy.specs.Putting.{OnMore};
ghost use Rattle.kernel_copy.specs.declared.phase.KernelPhase.TheVariants as phase;
ghost use Rattle.kernel_copy.specs.Work.{IsStepped, Takes, left, then_phase, then_turn};
ghost use Rattle.kernel_copy.specs.Steps.{IsToldStep, Needs};

use super::KernelTask;
use crate::phase::KernelPhase;
use folder_build::folder_meta;
use fs_trait::{Fs, FsErr, StepResult};

impl KernelTask {
    /// Does the next step: at most one changing call, and at most two reading ones. After an error the task is unchanged, so that
    /// the step may be tried again. `Missing` comes, too, where a file ends early.
    pub fn step<F: Fs>(&mut self, fs: &mut F) -> Result<StepResult<()>, FsErr>
        requires { (v : View) → F.view fs.old ≡ Some v → Needs self.old v }
        ensures told { (v : View) → F.view fs.old ≡ Some v → IsToldStep self.old self.new v result (F.view fs.new) }
        ensures named { IfErr result OfPlacing }
        ensures stepped { IsStepped self.old result self.new }
        ensures falls { OnMore result (left self.new < left self.old) }
        ensures time { Elapses (F.clock fs.old) (F.clock fs.new) (F.was fs.old) (F.was fs.new) (F.view fs.new) }
        ensures ticks { OnOk result (Takes self.old (F.clock fs.old) (F.clock fs.new)) }
        ensures cause { HasCause (F.faults fs.old) (F.faults fs.new) result }
        ensures room { F.spare fs.old ≤ F.spare fs.new + 1 }
    {
        match self.phase {
            KernelPhase::Folder => self.make_folder(fs),
            KernelPhase::Kernel => self.put_kernel(fs),
            KernelPhase::Initramfs => self.put_initramfs(fs),
            KernelPhase::Ended => Ok(StepResult::Done(())),
        }
    }

    // makes the folder, unless something stands there
    fn make_folder<F: Fs>(&mut self, fs: &mut F) -> Result<StepResult<()>, FsErr>
        requires phase { self.old.phase ≡ phase.Folder }
        requires needs { (v : View) → F.view fs.old ≡ Some v → Needs self.old v }
        ensures told { (v : View) → F.view fs.old ≡ Some v → IsToldStep self.old self.new v result (F.view fs.new) }
        ensures named { IfErr result OfPlacing }
        ensures stepped { IsStepped self.old result self.new }
        ensures falls { OnMore result (left self.new < left self.old) }
        ensures time { Elapses (F.clock fs.old) (F.clock fs.new) (F.was fs.old) (F.was fs.new) (F.view fs.new) }
        ensures ticks { OnOk result (Takes self.old (F.clock fs.old) (F.clock fs.new)) }
        ensures cause { HasCause (F.faults fs.old) (F.faults fs.new) result }
        ensures room { F.spare fs.old ≤ F.spare fs.new + 1 }
    {
        if fs.stat(&self.folder)?.is_some() {
            return Ok(self.begin_kernel());
        }
        fs.mkdir(&self.folder, &folder_meta(self.alloc))?;
        Ok(self.begin_kernel())
    }

    // the folder is there
    fn begin_kernel(&mut self) -> StepResult<()>
        requires { self.old.phase ≡ phase.Folder }
        ensures turn { result ≡ turn.More }
        ensures task { self.new ≡ record self.old { phase = phase.Kernel } }
    {
        self.phase = KernelPhase::Kernel;
        StepResult::More
    }

    // puts the kernel's copy
    fn put_kernel<F: Fs>(&mut self, fs: &mut F) -> Result<StepResult<()>, FsErr>
        requires phase { self.old.phase ≡ phase.Kernel }
        requires needs { (v : View) → F.view fs.old ≡ Some v → Needs self.old v }
        ensures told { (v : View) → F.view fs.old ≡ Some v → IsToldStep self.old self.new v result (F.view fs.new) }
        ensures named { IfErr result OfPlacing }
        ensures stepped { IsStepped self.old result self.new }
        ensures falls { OnMore result (left self.new < left self.old) }
        ensures time { Elapses (F.clock fs.old) (F.clock fs.new) (F.was fs.old) (F.was fs.new) (F.view fs.new) }
        ensures ticks { OnOk result (Takes self.old (F.clock fs.old) (F.clock fs.new)) }
        ensures cause { HasCause (F.faults fs.old) (F.faults fs.new) result }
        ensures room { F.spare fs.old ≤ F.spare fs.new + 1 }
    {
        match self.kernel.step(fs)? {
            StepResult::More => Ok(StepResult::More),
            StepResult::Done(()) => Ok(self.begin_second()),
        }
    }

    // the kernel's copy is there
    fn begin_second(&mut self) -> StepResult<()>
        requires { self.old.phase ≡ phase.Kernel }
        ensures turn { result ≡ then_turn self.old.initramfs }
        ensures task { self.new ≡ record self.old { phase = then_phase self.old.initramfs } }
    {
        if self.initramfs.is_some() {
            self.phase = KernelPhase::Initramfs;
            StepResult::More
        } else {
            self.phase = KernelPhase::Ended;
            StepResult::Done(())
        }
    }

    // puts the copy of what the kernel first mounts
    fn put_initramfs<F: Fs>(&mut self, fs: &mut F) -> Result<StepResult<()>, FsErr>
        requires phase { self.old.phase ≡ phase.Initramfs }
        requires needs { (v : View) → F.view fs.old ≡ Some v → Needs self.old v }
        ensures told { (v : View) → F.view fs.old ≡ Some v → IsToldStep self.old self.new v result (F.view fs.new) }
        ensures named { IfErr result OfPlacing }
        ensures stepped { IsStepped self.old result self.new }
        ensures falls { OnMore result (left self.new < left self.old) }
        ensures time { Elapses (F.clock fs.old) (F.clock fs.new) (F.was fs.old) (F.was fs.new) (F.view fs.new) }
        ensures ticks { OnOk result (Takes self.old (F.clock fs.old) (F.clock fs.new)) }
        ensures cause { HasCause (F.faults fs.old) (F.faults fs.new) result }
        ensures room { F.spare fs.old ≤ F.spare fs.new + 1 }
    {
        let Some(putting) = &mut self.initramfs else {
            unreachable!()
        };
        match putting.step(fs)? {
            StepResult::More => Ok(StepResult::More),
            StepResult::Done(()) => {
                self.phase = KernelPhase::Ended;
                Ok(StepResult::Done(()))
            }
        }
    }
}
