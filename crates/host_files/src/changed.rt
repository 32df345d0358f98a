//! The folders whose names aren't sure to be on the disk yet.
ghost use Rattle.std.specs.Prelude.{◌≡◌, ◌⊎◌, [], IsTrue, IsFalse, IsErr, OnOk, OnErr};
ghost use Rattle.std.specs.BTreeSet.{contains_text};
ghost use Rattle.host_files.specs.Changed.{IsNoted, IsSeenTo, KeepsNotes, ForgetsOnly};

use crate::private::sync;
use crate::{Fault, HostKind};
use std::alloc::{AllocError, Global};
use std::collections::BTreeSet;
use std::rt::Files;

/// The host's folders whose names changed since they were last synced, by the texts of their paths.
#[derive(Drop)]
pub struct Changed {
    alloc: Global,
    texts: BTreeSet<String>,
    // A change couldn't be noted, and its folder was synced at once.
    is_short: bool,
    // A sync failed.
    is_lost: bool,
}

impl Changed {
    pub fn new(alloc: Global) -> Changed
        ensures none { result.texts.keys ≡ [] }
        ensures noted { IsFalse result.is_short }
        ensures found { IsFalse result.is_lost }
    {
        Changed {
            alloc,
            texts: BTreeSet::new(alloc),
            is_short: false,
            is_lost: false,
        }
    }

    /// Whether a sync failed, so that none succeeds any more.
    pub fn is_lost(&self) -> bool
        ensures { result ≡ self.now.is_lost }
    {
        self.is_lost
    }

    /// Lets no later sync succeed.
    pub fn lose(&mut self)
        ensures lost { IsTrue self.new.is_lost }
        ensures keeps { KeepsNotes self.old self.new }
    {
        self.is_lost = true;
    }

    /// Notes a folder whose names changed. Where there is no memory for that it is synced at once.
    pub fn note<R: Files>(&mut self, rt: &R, text: &str)
        ensures noted { IsSeenTo text.now self.new }
        ensures keeps { KeepsNotes self.old self.new }
    {
        if self.keep(text).is_err() {
            self.is_short = true;
            if sync(rt, text).is_err() {
                self.is_lost = true;
            }
        }
    }

    /// Notes a folder whose names are to change.
    pub fn keep(&mut self, text: &str) -> Result<(), AllocError>
        ensures ok { OnOk result (IsNoted text.now self.new) }
        ensures keeps { KeepsNotes self.old self.new }
    {
        if !self.texts.contains(text) {
            self.texts.insert(String::from_str(self.alloc, text)?)?;
        }
        Ok(())
    }

    /// Forgets a folder that is gone.
    pub fn forget(&mut self, text: &str)
        ensures only { ForgetsOnly text.now self.old self.new }
        ensures lost { self.new.is_lost ≡ self.old.is_lost }
    {
        self.texts.remove(text);
    }

    /// Syncs a folder if its names changed.
    pub fn sync_one<R: Files>(&mut self, rt: &R, text: &str) -> Result<(), Fault>
        ensures ok { OnOk result (IsFalse (contains_text self.new.texts text.now)) }
        ensures err { OnErr result (IsTrue self.new.is_lost) }
        ensures lost { IsTrue self.old.is_lost → IsErr result }
    {
        if self.is_lost {
            return Err(Fault);
        }
        if self.texts.contains(text) {
            if sync(rt, text).is_err() {
                self.is_lost = true;
                return Err(Fault);
            }
            self.texts.remove(text);
        }
        Ok(())
    }

    /// Syncs all folders that are noted and still there, and forgets them.
    pub fn sync_all<R: Files>(&mut self, rt: &R) -> Result<(), Fault>
        ensures ok { OnOk result (self.new.texts.keys ≡ []) }
        ensures err { OnErr result (IsTrue self.new.is_lost) }
        ensures keeps { OnErr result (self.new.texts ≡ self.old.texts) }
        ensures lost { IsTrue self.old.is_lost → IsErr result }
    {
        if self.is_lost {
            return Err(Fault);
        }
        for text in &self.texts {
            if sync_if_there(rt, text.as_str()).is_err() {
                self.is_lost = true;
                return Err(Fault);
            }
        }
        self.texts.clear();
        Ok(())
    }
}

fn sync_if_there<R: Files>(rt: &R, text: &str) -> Result<(), Fault> {
    match HostKind::of(rt, text)? {
        HostKind::Absent => Ok(()),
        HostKind::File(_) | HostKind::Folder => sync(rt, text),
    }
}
