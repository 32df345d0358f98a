//! The task that makes the sum of a kernel.
ghost use Rattle.std.specs.Prelude.{◌≡◌, ◌≤◌, ◌<◌, ◌^◌, Some, Ok, IfErr};
ghost use Rattle.fs_trait.specs.View.{Disk, View};
ghost use Rattle.fs_trait.specs.Effect.{HasCause, IsQuiet, OfFinding};
ghost use Rattle.fs_trait.specs.declared.task.Need.TheVariants as need;
ghost use Rattle.tree_kernel.specs.declared.phase.SumPhase.TheVariants as phase;
ghost use Rattle.tree_kernel.specs.Summing.{Begins, IsAt, IsBegun, IsStepped, OnMore, Takes, left, turn_of, within_in};
ghost use Rattle.tree_kernel.specs.Telling.{IsSoFar, StepTells};

use crate::phase::{SumPhase, initramfs_from, kernel_from};
use crate::pieces::{file_size, initramfs_size, piece_end, read_piece};
use deploy_list::BootSum;
use fs_trait::{Fs, FsErr, Need, StepResult};
use ost_types::Csum;
use std::alloc::Global;
use std::marker::Model;
use std::mem;

/// The task that makes the sum of a kernel and its initramfs, of which there may be none, by the sums of their objects: a piece of at
/// most 1 MiB a step, so that neither file is held whole.
#[derive(Drop)]
pub struct KernelSum {
    alloc: Global,
    kernel: Csum,
    initramfs: Option<Csum>,
    sum: BootSum,
    phase: SumPhase,
}

impl Model for KernelSum {
    ghost use Rattle.tree_kernel.specs.Summing.{Summing, within_in};

    ghost Value = { Summing };

    ghost view = { λ a. record { kernel = a.kernel; initramfs = a.initramfs; sum = a.sum; phase = a.phase } };

    ghost invariant = { λ a. within_in a.phase a.initramfs };
}

impl KernelSum {
    pub fn new(alloc: Global, kernel: Csum, initramfs: Option<Csum>) -> KernelSum
        ensures { IsBegun kernel initramfs result }
    {
        KernelSum {
            alloc,
            kernel,
            initramfs,
            sum: BootSum::begin(0),
            phase: SumPhase::Look,
        }
    }

    /// The lock under which the next step must stand: none, since it changes nothing.
    pub fn needs(&self) -> Need
        ensures { result ≡ need.Nothing }
    {
        Need::Nothing
    }

    /// At most so many steps are left; each byte that wasn't taken counts as one.
    pub fn left(&self) -> u128
        ensures value { result ≡ left self.now }
        ensures small { result ≤ 2 ^ 65 }
    {
        match self.phase {
            SumPhase::Look => 2 + 2 * u64::MAX as u128,
            SumPhase::Kernel { size, at, after } => 1 + (size - at) as u128 + after as u128,
            SumPhase::Initramfs { size, at } => 1 + (size - at) as u128,
            SumPhase::Finish => 1,
            SumPhase::Ended(_) => 0,
        }
    }

    /// Does the next step: at most two reading calls. After an error the task is unchanged, so that the step may be tried again.
    /// `Missing` comes where a file isn't there, or ends early.
    pub fn step<F: Fs>(&mut self, fs: &mut F) -> Result<StepResult<Csum>, FsErr>
        ensures told { (v : View) → F.view fs.old ≡ Some v → IsSoFar v.now self.old → StepTells v.now self.old result self.new }
        ensures named { IfErr result OfFinding }
        ensures stepped { IsStepped self.old result self.new }
        ensures falls { OnMore result (left self.new < left self.old) }
        ensures quiet { IsQuiet (F.clock fs.old) (F.clock fs.new) (F.was fs.old) (F.was fs.new) (F.view fs.old) (F.view fs.new) }
        ensures room { F.spare fs.old ≤ F.spare fs.new }
        ensures cause { HasCause (F.faults fs.old) (F.faults fs.new) result }
    {
        match self.phase {
            SumPhase::Look => self.look(fs),
            SumPhase::Kernel { size, at, after } => self.take_kernel(fs, size, at, after),
            SumPhase::Initramfs { size, at } => self.take_initramfs(fs, size, at),
            SumPhase::Finish => Ok(self.finish()),
            SumPhase::Ended(_) => Ok(self.turn()),
        }
    }

    // looks how long both files are
    fn look<F: Fs>(&mut self, fs: &mut F) -> Result<StepResult<Csum>, FsErr>
        requires { self.old.phase ≡ phase.Look }
        ensures told { (v : View) → F.view fs.old ≡ Some v → StepTells v.now self.old result self.new }
        ensures named { IfErr result OfFinding }
        ensures stepped { IsStepped self.old result self.new }
        ensures falls { OnMore result (left self.new < left self.old) }
        ensures quiet { IsQuiet (F.clock fs.old) (F.clock fs.new) (F.was fs.old) (F.was fs.new) (F.view fs.old) (F.view fs.new) }
        ensures room { F.spare fs.old ≤ F.spare fs.new }
        ensures cause { HasCause (F.faults fs.old) (F.faults fs.new) result }
    {
        let kernel = file_size(self.alloc, fs, &self.kernel)?;
        let initramfs = initramfs_size(self.alloc, fs, &self.initramfs)?;
        self.begin(kernel, kernel_from(kernel, 0, initramfs));
        Ok(StepResult::More)
    }

    // takes a piece of the kernel
    fn take_kernel<F: Fs>(
        &mut self,
        fs: &mut F,
        size: u64,
        at: u64,
        after: u64,
    ) -> Result<StepResult<Csum>, FsErr>
        requires { IsAt self.old (phase.Kernel size at after) }
        ensures told { (v : View) → F.view fs.old ≡ Some v → IsSoFar v.now self.old → StepTells v.now self.old result self.new }
        ensures named { IfErr result OfFinding }
        ensures stepped { IsStepped self.old result self.new }
        ensures falls { OnMore result (left self.new < left self.old) }
        ensures quiet { IsQuiet (F.clock fs.old) (F.clock fs.new) (F.was fs.old) (F.was fs.new) (F.view fs.old) (F.view fs.new) }
        ensures room { F.spare fs.old ≤ F.spare fs.new }
        ensures cause { HasCause (F.faults fs.old) (F.faults fs.new) result }
    {
        let end = piece_end(size, at);
        let piece = read_piece(self.alloc, fs, &self.kernel, at, end)?;
        let taken = at + piece.as_slice().len() as u64;
        self.take(piece.as_slice(), kernel_from(size, taken, after));
        Ok(StepResult::More)
    }

    // takes a piece of the initramfs
    fn take_initramfs<F: Fs>(
        &mut self,
        fs: &mut F,
        size: u64,
        at: u64,
    ) -> Result<StepResult<Csum>, FsErr>
        requires { IsAt self.old (phase.Initramfs size at) }
        ensures told { (v : View) → F.view fs.old ≡ Some v → IsSoFar v.now self.old → StepTells v.now self.old result self.new }
        ensures named { IfErr result OfFinding }
        ensures stepped { IsStepped self.old result self.new }
        ensures falls { OnMore result (left self.new < left self.old) }
        ensures quiet { IsQuiet (F.clock fs.old) (F.clock fs.new) (F.was fs.old) (F.was fs.new) (F.view fs.old) (F.view fs.new) }
        ensures room { F.spare fs.old ≤ F.spare fs.new }
        ensures cause { HasCause (F.faults fs.old) (F.faults fs.new) result }
    {
        let Some(initramfs) = self.initramfs else {
            unreachable!()
        };
        let end = piece_end(size, at);
        let piece = read_piece(self.alloc, fs, &initramfs, at, end)?;
        let taken = at + piece.as_slice().len() as u64;
        self.take(piece.as_slice(), initramfs_from(size, taken));
        Ok(StepResult::More)
    }

    // what a step comes to that leaves the task like this
    fn turn(&self) -> StepResult<Csum>
        ensures { result ≡ turn_of self.now.phase }
    {
        match &self.phase {
            SumPhase::Ended(sum) => StepResult::Done(*sum),
            _ => StepResult::More,
        }
    }

    // begins with the kernel's length; this comes next
    fn begin(&mut self, len: u64, next: SumPhase)
        requires { within_in next self.old.initramfs }
        ensures { Begins self.old len next self.new }
    {
        self.sum = BootSum::begin(len);
        self.phase = next;
    }

    // takes these bytes; this comes next
    fn take(&mut self, piece: &[u8], next: SumPhase)
        requires { within_in next self.old.initramfs }
        ensures { Takes self.old piece.now next self.new }
    {
        self.sum.append(piece);
        self.phase = next;
    }

    // makes the sum
    fn finish(&mut self) -> StepResult<Csum>
        requires { self.old.phase ≡ phase.Finish }
        ensures told { (d : Disk) → IsSoFar d self.old → StepTells d self.old (Ok result) self.new }
        ensures stepped { IsStepped self.old (Ok result) self.new }
        ensures falls { OnMore (Ok result) (left self.new < left self.old) }
    {
        let sum = mem::replace(&mut self.sum, BootSum::begin(0)).finish();
        self.phase = SumPhase::Ended(sum);
        StepResult::Done(sum)
    }
}
