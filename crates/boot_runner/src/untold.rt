//! A file system in memory that tells nothing of what it holds.
ghost use Rattle.std.specs.Prelude.{◌≡◌, ℕ, None, OnOk, OnErr, IfErr, IsErrOf};
ghost use Rattle.fs_trait.specs.Count.{last};
ghost use Rattle.fs_trait.specs.Effect.{Next, OfEmptying, OfFinding, OfNone, OfPlacing, Ticks};
ghost use Rattle.fs_trait.specs.declared.types.FsErr.TheVariants as error;
ghost use Rattle.boot_runner.specs.Laws.{not_told};

use fs_memory::MemFs;
use fs_trait::{Fs, FsErr, Node};
use ost_types::{Bytes, FsPath, Meta, Names, Text};

/// A file system in memory that tells nothing of what it holds, nor how many calls failed: so its calls, and what is made of them, ask
/// for nothing. A changing call that wants for memory has failed.
#[derive(Drop)]
pub struct Untold {
    pub disk: MemFs,
    /// The disk's clock behind the last sync of all.
    pub barrier: u64,
    clock: u64,
}

impl Untold {
    pub fn new(disk: MemFs) -> Untold {
        Untold {
            disk,
            barrier: 0,
            clock: 0,
        }
    }

    // Counts a changing call. At the last value of the clock it fails.
    fn begin(&mut self) -> Result<(), FsErr>
        ensures ok { OnOk result (Next self.old.clock self.new.clock) }
        ensures err { IfErr result (λ e. e ≡ error.Failed) }
        ensures stops { OnErr result (self.old.clock ≡ last) }
        ensures same { OnErr result (self.new.clock ≡ self.old.clock) }
    {
        match self.clock.checked_add(1) {
            Some(clock) => {
                self.clock = clock;
                Ok(())
            }
            None => Err(FsErr::Failed),
        }
    }
}

// The answer, where a want of memory is a failure.
fn unless_wanting(answer: Result<(), FsErr>) -> Result<(), FsErr>
    ensures memory { IsErrOf result error.NoMemory → ⊥ }
    ensures placing { IfErr answer OfPlacing → IfErr result OfPlacing }
    ensures finding { IfErr answer OfFinding → IfErr result OfFinding }
    ensures emptying { IfErr answer OfEmptying → IfErr result OfEmptying }
    ensures none { IfErr answer OfNone → IfErr result OfNone }
    ensures ticks { (before now : ℕ) → Next before now → Ticks before now result }
{
    match answer {
        Ok(()) => Ok(()),
        Err(FsErr::NoMemory) | Err(FsErr::Failed) => Err(FsErr::Failed),
        Err(FsErr::Exists) => Err(FsErr::Exists),
        Err(FsErr::Missing) => Err(FsErr::Missing),
        Err(FsErr::NotFolder) => Err(FsErr::NotFolder),
        Err(FsErr::NotEmpty) => Err(FsErr::NotEmpty),
    }
}

impl Fs for Untold {
    ghost view = { λ _. None };

    ghost clock = { λ s. s.clock };

    ghost was = { λ _ _ _. ⊥ };

    ghost faults = { λ _. last };

    ghost spare = { λ _. last };

    fn mkdir(&mut self, at: &FsPath, meta: &Meta) -> Result<(), FsErr> {
        self.begin()?;
        unless_wanting(self.disk.mkdir(at, meta))
    }

    fn create(&mut self, at: &FsPath, meta: &Meta) -> Result<(), FsErr> {
        self.begin()?;
        unless_wanting(self.disk.create(at, meta))
    }

    fn append(&mut self, at: &FsPath, bytes: &[u8]) -> Result<(), FsErr> {
        self.begin()?;
        unless_wanting(self.disk.append(at, bytes))
    }

    fn symlink(&mut self, at: &FsPath, target: &Text, meta: &Meta) -> Result<(), FsErr> {
        self.begin()?;
        unless_wanting(self.disk.symlink(at, target, meta))
    }

    fn link(&mut self, from: &FsPath, to: &FsPath) -> Result<(), FsErr> {
        self.begin()?;
        unless_wanting(self.disk.link(from, to))
    }

    fn unlink(&mut self, at: &FsPath) -> Result<(), FsErr> {
        self.begin()?;
        unless_wanting(self.disk.unlink(at))
    }

    fn rmdir(&mut self, at: &FsPath) -> Result<(), FsErr> {
        self.begin()?;
        unless_wanting(self.disk.rmdir(at))
    }

    // Two names of one file are never given here; that they aren't is read first.
    fn rename(&mut self, from: &FsPath, to: &FsPath) -> Result<(), FsErr> {
        self.begin()?;
        match self.disk.same(from, to) {
            Ok(false) => unless_wanting(self.disk.rename(from, to)),
            _ => Err(FsErr::Failed),
        }
    }

    fn sync_file(&mut self, at: &FsPath) -> Result<(), FsErr> {
        self.begin()?;
        unless_wanting(self.disk.sync_file(at))
    }

    fn sync_dir(&mut self, at: &FsPath) -> Result<(), FsErr> {
        self.begin()?;
        unless_wanting(self.disk.sync_dir(at))
    }

    fn sync_all(&mut self) -> Result<(), FsErr> {
        self.begin()?;
        let answer = unless_wanting(self.disk.sync_all());
        if answer.is_ok() {
            self.barrier = self.disk.moments();
        }
        answer
    }

    fn reserve(&mut self, calls: u64) -> Result<(), FsErr> {
        self.disk.reserve(calls)
    }

    fn stat(&mut self, at: &FsPath) -> Result<Option<Node>, FsErr> {
        self.disk.stat(at)
    }

    fn read(&mut self, at: &FsPath) -> Result<Bytes, FsErr> {
        self.disk.read(at)
    }

    fn read_part(&mut self, at: &FsPath, from: u64, max: u32) -> Result<Bytes, FsErr> {
        self.disk.read_part(at, from, max)
    }

    fn list(&mut self, at: &FsPath) -> Result<Names, FsErr> {
        self.disk.list(at)
    }

    fn same(&mut self, a: &FsPath, b: &FsPath) -> Result<bool, FsErr> {
        self.disk.same(a, b)
    }

    fn clock(&self) -> u64 {
        self.clock
    }

    fn faults(&self) -> u64 {
        u64::MAX
    }

    ghost counts_now = { λ _ t v le is. not_told v is };

    ghost only_now = { λ _ t v le was. absurd was };

    ghost bound = { λ _ t v was. absurd was };

    ghost tree = { λ _ v is. not_told v is };

    ghost told = { λ _ _ v is. not_told v is };
}
