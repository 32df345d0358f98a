//! The current folder of the machine as a file system, with its counts.
ghost use Rattle.std.specs.Prelude.{◌≡◌, ◌<◌, None, OnOk, OnErr, IfErr, IfOk};
ghost use Rattle.fs_trait.specs.Count.{last, Rose};
ghost use Rattle.fs_trait.specs.Effect.{Next, HasCause, IsCounted};
ghost use Rattle.fs_native.specs.Laws.{not_told};
ghost use Rattle.host_files.specs.Refusal.{answered, IsClockAfter};

use crate::CurrentFolder;
use fs_trait::{Fs, FsErr, Node};
use host_files::{Machine, Refusal, Syncer};
use ost_types::{Bytes, FsPath, Meta, Names, NoMemory, Text};

/// The current folder of the machine, with its own files. It tells nothing of what it holds.
///
/// A regular file, a symbolic link and a folder are the machine's own, with owner, group and mode; each link has mode
/// 0o120777. Extended attributes are out of reach: a node that is to have some is `Failed` and counted, and one that has
/// some on the machine is read without them. So are a link of another mode, an owner or a group of the number
/// 4,294,967,295, a FIFO, a socket, a device, the folder `.ost-new` at the top, and every error of the machine, such as
/// that of an owner whom only root may set.
#[derive(Drop)]
pub struct NativeFs<R: Machine, S: Syncer> {
    folder: CurrentFolder<R, S>,
    clock: u64,
    faults: u64,
}

impl<R: Machine, S: Syncer> NativeFs<R, S> {
    ghost use Rattle.fs_native.specs.Counts.{clock_of, faults_of};

    /// The file system, with room for the texts of paths.
    pub fn new(rt: R, syncer: S) -> Result<NativeFs<R, S>, NoMemory>
        ensures clock { IfOk result (λ fs. clock_of fs ≡ 0) }
        ensures faults { IfOk result (λ fs. faults_of fs ≡ 0) }
    {
        Ok(NativeFs {
            folder: CurrentFolder::new(rt, syncer)?,
            clock: 0,
            faults: 0,
        })
    }

    /// The file system where another may not be disturbed: each call fails, and nothing is touched.
    pub fn shut(rt: R, syncer: S) -> Result<NativeFs<R, S>, NoMemory>
        ensures clock { IfOk result (λ fs. clock_of fs ≡ 0) }
        ensures faults { IfOk result (λ fs. faults_of fs ≡ 0) }
    {
        Ok(NativeFs {
            folder: CurrentFolder::shut(rt, syncer)?,
            clock: 0,
            faults: 0,
        })
    }

    // Counts a changing call. At the last value of the clock it fails.
    fn begin(&mut self) -> Result<(), FsErr>
        ensures folder { self.new.folder ≡ self.old.folder }
        ensures ok { OnOk result (Next self.old.clock self.new.clock) }
        ensures no_fault { OnOk result (self.new.faults ≡ self.old.faults) }
        ensures err { IfErr result (λ e. e ≡ FsErr.Failed) }
        ensures stops { OnErr result (self.old.clock ≡ last) }
        ensures same { OnErr result (self.new.clock ≡ self.old.clock) }
        ensures cause { HasCause self.old.faults self.new.faults result }
        ensures counts { IsCounted self.old.faults self.new.faults result }
    {
        match self.clock.checked_add(1) {
            Some(clock) => {
                self.clock = clock;
                Ok(())
            }
            None => self.counted(Err(FsErr::Failed)),
        }
    }

    // Answers what the machine did, and counts it where it failed.
    fn counted<T: Drop>(&mut self, outcome: Result<T, FsErr>) -> Result<T, FsErr>
        ensures answer { result ≡ outcome }
        ensures folder { self.new.folder ≡ self.old.folder }
        ensures clock { self.new.clock ≡ self.old.clock }
        ensures cause { HasCause self.old.faults self.new.faults result }
        ensures counts { IsCounted self.old.faults self.new.faults result }
    {
        if let Err(FsErr::Failed) = &outcome {
            self.faults = self.faults.saturating_add(1);
        }
        outcome
    }

    fn answer<T: Drop>(&mut self, outcome: Result<T, Refusal>) -> Result<T, FsErr>
        ensures answer { result ≡ answered outcome }
        ensures folder { self.new.folder ≡ self.old.folder }
        ensures clock { self.new.clock ≡ self.old.clock }
        ensures cause { HasCause self.old.faults self.new.faults result }
        ensures counts { IsCounted self.old.faults self.new.faults result }
    {
        self.counted(outcome.map_err(FsErr::from))
    }

    // The same of a call that may lack memory: it is then as if there had been no call.
    fn answer_or_undo<T: Drop>(&mut self, outcome: Result<T, FsErr>) -> Result<T, FsErr>
        requires { 0 < self.old.clock }
        ensures answer { result ≡ outcome }
        ensures folder { self.new.folder ≡ self.old.folder }
        ensures clock { IsClockAfter self.old.clock self.new.clock result }
        ensures cause { HasCause self.old.faults self.new.faults result }
        ensures counts { IsCounted self.old.faults self.new.faults result }
    {
        if let Err(FsErr::NoMemory) = &outcome {
            self.clock -= 1;
        }
        self.counted(outcome)
    }
}

impl<R: Machine, S: Syncer> Fs for NativeFs<R, S> {
    ghost view = { λ _. None };

    ghost clock = { λ s. s.clock };

    ghost was = { λ _ _ _. ⊥ };

    ghost faults = { λ s. s.faults };

    ghost spare = { λ _. last };

    fn mkdir(&mut self, at: &FsPath, meta: &Meta) -> Result<(), FsErr> {
        self.begin()?;
        let outcome = self.folder.mkdir(at, meta);
        self.answer_or_undo(outcome)
    }

    fn create(&mut self, at: &FsPath, meta: &Meta) -> Result<(), FsErr> {
        self.begin()?;
        let outcome = self.folder.create(at, meta);
        self.answer_or_undo(outcome)
    }

    fn append(&mut self, at: &FsPath, bytes: &[u8]) -> Result<(), FsErr> {
        self.begin()?;
        let outcome = self.folder.append(at, bytes);
        self.answer(outcome)
    }

    fn symlink(&mut self, at: &FsPath, target: &Text, meta: &Meta) -> Result<(), FsErr> {
        self.begin()?;
        let outcome = self.folder.symlink(at, target, meta);
        self.answer_or_undo(outcome)
    }

    fn link(&mut self, from: &FsPath, to: &FsPath) -> Result<(), FsErr> {
        self.begin()?;
        let outcome = self.folder.link(from, to);
        self.answer(outcome)
    }

    fn unlink(&mut self, at: &FsPath) -> Result<(), FsErr> {
        self.begin()?;
        let outcome = self.folder.unlink(at);
        self.answer(outcome)
    }

    fn rmdir(&mut self, at: &FsPath) -> Result<(), FsErr> {
        self.begin()?;
        let outcome = self.folder.rmdir(at);
        self.answer(outcome)
    }

    fn rename(&mut self, from: &FsPath, to: &FsPath) -> Result<(), FsErr> {
        self.begin()?;
        let outcome = self.folder.rename(from, to);
        self.answer(outcome)
    }

    fn sync_file(&mut self, at: &FsPath) -> Result<(), FsErr> {
        self.begin()?;
        let outcome = self.folder.sync_file(at);
        self.answer(outcome)
    }

    fn sync_dir(&mut self, at: &FsPath) -> Result<(), FsErr> {
        self.begin()?;
        let outcome = self.folder.sync_dir(at);
        self.answer(outcome)
    }

    fn sync_all(&mut self) -> Result<(), FsErr> {
        self.begin()?;
        let outcome = self.folder.sync_all();
        self.counted(outcome.map_err(FsErr::from))
    }

    fn reserve(&mut self, _calls: u64) -> Result<(), FsErr> {
        Ok(())
    }

    fn stat(&mut self, at: &FsPath) -> Result<Option<Node>, FsErr> {
        let outcome = self.folder.stat(at);
        self.counted(outcome)
    }

    fn read(&mut self, at: &FsPath) -> Result<Bytes, FsErr> {
        let outcome = self.folder.read(at);
        self.counted(outcome)
    }

    fn read_part(&mut self, at: &FsPath, from: u64, max: u32) -> Result<Bytes, FsErr> {
        let outcome = self.folder.read_part(at, from, max);
        self.counted(outcome)
    }

    fn list(&mut self, at: &FsPath) -> Result<Names, FsErr> {
        let outcome = self.folder.list(at);
        self.counted(outcome)
    }

    fn same(&mut self, a: &FsPath, b: &FsPath) -> Result<bool, FsErr> {
        let outcome = self.folder.same(a, b);
        self.counted(outcome)
    }

    fn clock(&self) -> u64 {
        self.clock
    }

    fn faults(&self) -> u64 {
        self.faults
    }

    ghost counts_now = { λ _ t v le is. not_told v is };

    ghost only_now = { λ _ t v le was. absurd was };

    ghost bound = { λ _ t v was. absurd was };

    ghost tree = { λ _ v is. not_told v is };

    ghost told = { λ _ _ v is. not_told v is };
}
