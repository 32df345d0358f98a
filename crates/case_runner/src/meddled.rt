//! A disk that another program changes between two calls.
ghost use Rattle.std.specs.Prelude.{◌≡◌, ◌≢◌, ◌≤◌, ℕ, None, IfErr, IsErrOf, true, false};
ghost use Rattle.fs_trait.specs.Count.{last};
ghost use Rattle.fs_trait.specs.Effect.{HasCause, IsCounted, Next, OfEmptying, OfFinding, OfNone, OfPlacing, Ticks};
ghost use Rattle.fs_trait.specs.declared.types.FsErr.TheVariants as error;
ghost use Rattle.case_runner.specs.Laws.{not_told};

use fs_trait::{Fs, FsErr, Node};
use ost_types::{Bytes, FsPath, Meta, Names, Text};

/// A disk that tells nothing of what it holds, as that of a machine, and from which another program removes a leaf. A changing call that
/// wants for memory has failed.
#[derive(Drop)]
pub struct Meddled<D: Fs> {
    disk: D,
    clock: u64,
    faults: u64,
    calls: u64,
    // before which call the leaf is removed
    number: u64,
    at: FsPath,
}

impl<D: Fs> Meddled<D> {
    /// The leaf is removed before the call of this number, counted from 1.
    pub fn new(disk: D, number: u64, at: FsPath) -> Meddled<D> {
        Meddled {
            disk,
            clock: 0,
            faults: 0,
            calls: 0,
            number,
            at,
        }
    }

    /// Whether there was such a call.
    pub fn was_reached(&self) -> bool {
        self.calls >= self.number
    }

    // One more call, before which the other program may do its work.
    fn meet(&mut self)
        ensures clock { self.new.clock ≡ self.old.clock }
        ensures faults { self.new.faults ≡ self.old.faults }
    {
        self.calls = self.calls.saturating_add(1);
        if self.calls == self.number {
            let _ = self.disk.unlink(&self.at);
        }
    }

    // A changing call. At the last value of the clock it can't be made.
    fn begin(&mut self) -> bool
        ensures next { result ≡ true → Next self.old.clock self.new.clock }
        ensures stops { result ≡ false → (self.old.clock ≡ last) × (self.new.clock ≡ self.old.clock) }
        ensures faults { self.new.faults ≡ self.old.faults }
    {
        self.meet();
        match self.clock.checked_add(1) {
            Some(clock) => {
                self.clock = clock;
                true
            }
            None => false,
        }
    }

    // A call that failed is counted.
    fn failed<T>(&mut self) -> Result<T, FsErr>
        ensures answer { IsErrOf result error.Failed }
        ensures clock { self.new.clock ≡ self.old.clock }
        ensures cause { HasCause self.old.faults self.new.faults result }
        ensures counts { IsCounted self.old.faults self.new.faults result }
    {
        self.faults = self.faults.saturating_add(1);
        Err(FsErr::Failed)
    }

    // The answer of a changing call, where a want of memory is a failure.
    fn changed(&mut self, answer: Result<(), FsErr>) -> Result<(), FsErr>
        ensures memory { IsErrOf result error.NoMemory → ⊥ }
        ensures placing { IfErr answer OfPlacing → IfErr result OfPlacing }
        ensures finding { IfErr answer OfFinding → IfErr result OfFinding }
        ensures emptying { IfErr answer OfEmptying → IfErr result OfEmptying }
        ensures none { IfErr answer OfNone → IfErr result OfNone }
        ensures clock { self.new.clock ≡ self.old.clock }
        ensures cause { HasCause self.old.faults self.new.faults result }
        ensures counts { IsCounted self.old.faults self.new.faults result }
    {
        match answer {
            Ok(()) => Ok(()),
            Err(FsErr::NoMemory) | Err(FsErr::Failed) => self.failed(),
            Err(error) => Err(error),
        }
    }

    // That of one that reads.
    fn told<T>(&mut self, answer: Result<T, FsErr>) -> Result<T, FsErr>
        ensures same { result ≡ answer }
        ensures clock { self.new.clock ≡ self.old.clock }
        ensures cause { HasCause self.old.faults self.new.faults result }
        ensures counts { IsCounted self.old.faults self.new.faults result }
    {
        match answer {
            Err(FsErr::Failed) => self.failed(),
            answer => answer,
        }
    }
}

impl<D: Fs> Fs for Meddled<D> {
    ghost view = { λ _. None };

    ghost clock = { λ s. s.clock };

    ghost was = { λ _ _ _. ⊥ };

    ghost faults = { λ s. s.faults };

    ghost spare = { λ _. last };

    fn mkdir(&mut self, at: &FsPath, meta: &Meta) -> Result<(), FsErr> {
        if !self.begin() {
            return self.failed();
        }
        let answer = self.disk.mkdir(at, meta);
        self.changed(answer)
    }

    fn create(&mut self, at: &FsPath, meta: &Meta) -> Result<(), FsErr> {
        if !self.begin() {
            return self.failed();
        }
        let answer = self.disk.create(at, meta);
        self.changed(answer)
    }

    fn append(&mut self, at: &FsPath, bytes: &[u8]) -> Result<(), FsErr> {
        if !self.begin() {
            return self.failed();
        }
        let answer = self.disk.append(at, bytes);
        self.changed(answer)
    }

    fn symlink(&mut self, at: &FsPath, target: &Text, meta: &Meta) -> Result<(), FsErr> {
        if !self.begin() {
            return self.failed();
        }
        let answer = self.disk.symlink(at, target, meta);
        self.changed(answer)
    }

    fn link(&mut self, from: &FsPath, to: &FsPath) -> Result<(), FsErr> {
        if !self.begin() {
            return self.failed();
        }
        let answer = self.disk.link(from, to);
        self.changed(answer)
    }

    fn unlink(&mut self, at: &FsPath) -> Result<(), FsErr> {
        if !self.begin() {
            return self.failed();
        }
        let answer = self.disk.unlink(at);
        self.changed(answer)
    }

    fn rmdir(&mut self, at: &FsPath) -> Result<(), FsErr> {
        if !self.begin() {
            return self.failed();
        }
        let answer = self.disk.rmdir(at);
        self.changed(answer)
    }

    // Two names of one file are never given here; that they aren't is read first.
    fn rename(&mut self, from: &FsPath, to: &FsPath) -> Result<(), FsErr> {
        if !self.begin() {
            return self.failed();
        }
        match self.disk.same(from, to) {
            Ok(false) => {
                let answer = self.disk.rename(from, to);
                self.changed(answer)
            }
            _ => self.failed(),
        }
    }

    fn sync_file(&mut self, at: &FsPath) -> Result<(), FsErr> {
        if !self.begin() {
            return self.failed();
        }
        let answer = self.disk.sync_file(at);
        self.changed(answer)
    }

    fn sync_dir(&mut self, at: &FsPath) -> Result<(), FsErr> {
        if !self.begin() {
            return self.failed();
        }
        let answer = self.disk.sync_dir(at);
        self.changed(answer)
    }

    fn sync_all(&mut self) -> Result<(), FsErr> {
        if !self.begin() {
            return self.failed();
        }
        let answer = self.disk.sync_all();
        self.changed(answer)
    }

    fn reserve(&mut self, calls: u64) -> Result<(), FsErr> {
        self.disk.reserve(calls)
    }

    fn stat(&mut self, at: &FsPath) -> Result<Option<Node>, FsErr> {
        self.meet();
        let answer = self.disk.stat(at);
        self.told(answer)
    }

    fn read(&mut self, at: &FsPath) -> Result<Bytes, FsErr> {
        self.meet();
        let answer = self.disk.read(at);
        self.told(answer)
    }

    fn read_part(&mut self, at: &FsPath, from: u64, max: u32) -> Result<Bytes, FsErr> {
        self.meet();
        let answer = self.disk.read_part(at, from, max);
        self.told(answer)
    }

    fn list(&mut self, at: &FsPath) -> Result<Names, FsErr> {
        self.meet();
        let answer = self.disk.list(at);
        self.told(answer)
    }

    fn same(&mut self, a: &FsPath, b: &FsPath) -> Result<bool, FsErr> {
        self.meet();
        let answer = self.disk.same(a, b);
        self.told(answer)
    }

    fn clock(&self) -> u64 {
        self.clock
    }

    fn faults(&self) -> u64 {
        self.faults
    }

    ghost counts_now = { λ _ t v le is. not_told v is };

    ghost only_now = { λ _ t v le was. absurd was };

    ghost bound = { λ _ t v was. absurd was };

    ghost tree = { λ _ v is. not_told v is };

    ghost told = { λ _ _ v is. not_told v is };
}
