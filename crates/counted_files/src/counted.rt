//! A file system whose calls are counted.
ghost use Rattle.std.specs.Prelude.{◌≡◌, ℕ, None, OnOk, OnErr, IfErr, IsErrOf};
ghost use Rattle.fs_trait.specs.Count.{last};
ghost use Rattle.fs_trait.specs.Effect.{Next, OfEmptying, OfFinding, OfNone, OfPlacing, Ticks};
ghost use Rattle.fs_trait.specs.declared.types.FsErr.TheVariants as error;
ghost use Rattle.counted_files.specs.Laws.{not_told};

use crate::call::Call;
use crate::tally::Tally;
use fs_trait::{Fs, FsErr, Node};
use ost_types::{Bytes, FsPath, Meta, Names, Text};

/// A file system round another, whose calls are counted. It tells nothing of what it holds, so that what is stepped on it asks for
/// nothing of that. A changing call that wants for memory has failed.
#[derive(Drop)]
pub struct Counted<'a, F: Fs> {
    fs: F,
    tally: &'a Tally,
    clock: u64,
}

impl<'a, F: Fs> Counted<'a, F> {
    pub fn new(fs: F, tally: &'a Tally) -> Counted<'a, F>
        ensures { result.fs ≡ fs }
    {
        Counted {
            fs,
            tally,
            clock: 0,
        }
    }

    pub fn into_inner(self) -> F
        ensures { result ≡ self.entry.fs }
    {
        self.fs
    }

    // Counts a changing call. At the last value of the clock it fails.
    fn begin(&mut self, call: Call) -> Result<(), FsErr>
        ensures ok { OnOk result (Next self.old.clock self.new.clock) }
        ensures err { IfErr result (λ e. e ≡ error.Failed) }
        ensures stops { OnErr result (self.old.clock ≡ last) }
        ensures same { OnErr result (self.new.clock ≡ self.old.clock) }
    {
        self.tally.count(call);
        match self.clock.checked_add(1) {
            Some(clock) => {
                self.clock = clock;
                Ok(())
            }
            None => Err(FsErr::Failed),
        }
    }
}

// The answer of a changing call, where a want of memory is a failure.
fn answered(answer: Result<(), FsErr>) -> Result<(), FsErr>
    ensures memory { IsErrOf result error.NoMemory → ⊥ }
    ensures placing { IfErr answer OfPlacing → IfErr result OfPlacing }
    ensures finding { IfErr answer OfFinding → IfErr result OfFinding }
    ensures emptying { IfErr answer OfEmptying → IfErr result OfEmptying }
    ensures none { IfErr answer OfNone → IfErr result OfNone }
    ensures ticks { (before now : ℕ) → Next before now → Ticks before now result }
{
    match answer {
        Ok(()) => Ok(()),
        Err(FsErr::NoMemory) | Err(FsErr::Failed) => Err(FsErr::Failed),
        Err(FsErr::Exists) => Err(FsErr::Exists),
        Err(FsErr::Missing) => Err(FsErr::Missing),
        Err(FsErr::NotFolder) => Err(FsErr::NotFolder),
        Err(FsErr::NotEmpty) => Err(FsErr::NotEmpty),
    }
}

impl<'a, F: Fs> Fs for Counted<'a, F> {
    ghost view = { λ _. None };

    ghost clock = { λ s. s.clock };

    ghost was = { λ _ _ _. ⊥ };

    ghost faults = { λ _. last };

    ghost spare = { λ _. last };

    fn mkdir(&mut self, at: &FsPath, meta: &Meta) -> Result<(), FsErr> {
        self.begin(Call::Mkdir)?;
        answered(self.fs.mkdir(at, meta))
    }

    fn create(&mut self, at: &FsPath, meta: &Meta) -> Result<(), FsErr> {
        self.begin(Call::Create)?;
        answered(self.fs.create(at, meta))
    }

    fn append(&mut self, at: &FsPath, bytes: &[u8]) -> Result<(), FsErr> {
        self.begin(Call::Append)?;
        answered(self.fs.append(at, bytes))
    }

    fn symlink(&mut self, at: &FsPath, target: &Text, meta: &Meta) -> Result<(), FsErr> {
        self.begin(Call::Symlink)?;
        answered(self.fs.symlink(at, target, meta))
    }

    fn link(&mut self, from: &FsPath, to: &FsPath) -> Result<(), FsErr> {
        self.begin(Call::Link)?;
        answered(self.fs.link(from, to))
    }

    fn unlink(&mut self, at: &FsPath) -> Result<(), FsErr> {
        self.begin(Call::Unlink)?;
        answered(self.fs.unlink(at))
    }

    fn rmdir(&mut self, at: &FsPath) -> Result<(), FsErr> {
        self.begin(Call::Rmdir)?;
        answered(self.fs.rmdir(at))
    }

    // Two names of one file are never given here; that they aren't is read first, and not counted.
    fn rename(&mut self, from: &FsPath, to: &FsPath) -> Result<(), FsErr> {
        self.begin(Call::Rename)?;
        match self.fs.same(from, to) {
            Ok(false) => answered(self.fs.rename(from, to)),
            _ => Err(FsErr::Failed),
        }
    }

    fn sync_file(&mut self, at: &FsPath) -> Result<(), FsErr> {
        self.begin(Call::SyncFile)?;
        answered(self.fs.sync_file(at))
    }

    fn sync_dir(&mut self, at: &FsPath) -> Result<(), FsErr> {
        self.begin(Call::SyncDir)?;
        answered(self.fs.sync_dir(at))
    }

    fn sync_all(&mut self) -> Result<(), FsErr> {
        self.begin(Call::SyncAll)?;
        answered(self.fs.sync_all())
    }

    fn reserve(&mut self, calls: u64) -> Result<(), FsErr> {
        self.fs.reserve(calls)
    }

    fn stat(&mut self, at: &FsPath) -> Result<Option<Node>, FsErr> {
        self.tally.count(Call::Stat);
        self.fs.stat(at)
    }

    fn read(&mut self, at: &FsPath) -> Result<Bytes, FsErr> {
        self.tally.count(Call::Read);
        self.fs.read(at)
    }

    fn read_part(&mut self, at: &FsPath, from: u64, max: u32) -> Result<Bytes, FsErr> {
        self.tally.count(Call::ReadPart);
        self.fs.read_part(at, from, max)
    }

    fn list(&mut self, at: &FsPath) -> Result<Names, FsErr> {
        self.tally.count(Call::List);
        self.fs.list(at)
    }

    fn same(&mut self, a: &FsPath, b: &FsPath) -> Result<bool, FsErr> {
        self.tally.count(Call::Same);
        self.fs.same(a, b)
    }

    fn clock(&self) -> u64 {
        self.clock
    }

    fn faults(&self) -> u64 {
        u64::MAX
    }

    ghost counts_now = { λ _ t v le is. not_told v is };

    ghost only_now = { λ _ t v le was. absurd was };

    ghost bound = { λ _ t v was. absurd was };

    ghost tree = { λ _ v is. not_told v is };

    ghost told = { λ _ _ v is. not_told v is };
}
