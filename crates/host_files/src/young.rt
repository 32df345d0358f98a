//! Young leaves: made in the reserved place, and not yet synced and shown under their names.
ghost use Rattle.std.specs.Prelude.{◌≡◌, ◌<◌, ◌≤◌, ◌↔◌, vec_len, IsTrue, IfErr, OnOk};
ghost use Rattle.fs_trait.specs.Effect.{OfNone};
ghost use Rattle.host_files.specs.Young.{AreSynced, IsSettled};

use crate::leaf::{extend, extend_leaf};
use crate::links::link_or_copy;
use crate::place::{rename, spell_young};
use crate::private::new_file;
use crate::share::Share;
use crate::{Fault, HostPath, Syncer};
use fs_trait::FsErr;
use ost_types::NoMemory;
use std::alloc::{AllocError, Global};
use std::collections::BTreeMap;
use std::fs;
use std::fs::OpenFile;
use std::io::Write;
use std::rt::Files;

/// No more files are young at once.
pub const MOST_FILES: usize = 1024;

/// Nor are more bytes, once a call has ended.
pub const MOST_BYTES: u64 = 1 << 26;

/// A file in the reserved place.
#[derive(Clone, Copy, Debug, PartialEq, Eq)]
pub struct YoungFile {
    /// How many names it is to have.
    pub names: u32,
    pub is_link: bool,
}

/// The young leaves.
#[derive(Drop)]
pub struct Young<F> {
    alloc: Global,
    // Their names, by the texts, each with the number of its file.
    names: BTreeMap<String, u32>,
    // The files, by their numbers.
    files: Vec<YoungFile>,
    // The first so many were synced after they were written last.
    synced: usize,
    // How many bytes were written to them.
    bytes: u64,
    // The last file, and its length, where it is open for adding bytes.
    last: Option<(F, u64)>,
    // The text of one of them.
    text: HostPath,
    shares: Vec<Share>,
}

impl<F: OpenFile + Write + Drop> Young<F> {
    pub fn new(alloc: Global) -> Result<Young<F>, NoMemory> {
        Ok(Young {
            alloc,
            names: BTreeMap::new(alloc),
            files: Vec::with_capacity(alloc, MOST_FILES)?,
            synced: 0,
            bytes: 0,
            last: None,
            text: HostPath::new(alloc)?,
            shares: Share::all(alloc)?,
        })
    }

    /// The number of the file that is to have this name.
    pub fn find(&self, text: &str) -> Option<u32> {
        self.names.get(text).copied()
    }

    pub fn is_link(&self, number: u32) -> bool {
        match self.files.get(number as usize) {
            Some(file) => file.is_link,
            None => false,
        }
    }

    /// Whether no file can be added.
    pub fn is_full(&self) -> bool
        ensures { IsTrue result ↔ (1024 ≤ vec_len self.now.files) }
    {
        self.files.len() >= MOST_FILES
    }

    /// Whether more bytes are young than may be.
    pub fn is_heavy(&self) -> bool {
        self.bytes > MOST_BYTES
    }

    /// Where the file of a number lies.
    pub fn text_of(&mut self, number: u32) -> &str {
        spell_young(number, &mut self.text);
        self.text.as_str()
    }

    /// Makes a file of these bytes that is to have a name.
    pub fn add<R: Files<File = F>>(
        &mut self,
        rt: &R,
        name: &str,
        bytes: &[u8],
        is_link: bool,
    ) -> Result<(), FsErr>
        requires { vec_len self.old.files < 1024 }
        ensures { IfErr result OfNone }
    {
        let number = self.files.len() as u32;
        self.give(name, number)?;
        self.synced = 0;
        self.last = None;
        if self.files.push(YoungFile { names: 1, is_link }).is_err() {
            self.names.remove(name);
            return Err(FsErr::NoMemory);
        }
        match write_new(rt, self.text_of(number), bytes) {
            Ok(file) => {
                self.last = Some((file, bytes.len() as u64));
                self.bytes = self.bytes.saturating_add(bytes.len() as u64);
                Ok(())
            }
            Err(_) => {
                let _ = self.take(rt, name);
                Err(FsErr::Failed)
            }
        }
    }

    // Notes a name of a file.
    fn give(&mut self, name: &str, number: u32) -> Result<(), AllocError> {
        let name = String::from_str(self.alloc, name)?;
        match self.names.insert(name, number) {
            Ok(_) => Ok(()),
            Err(_) => Err(AllocError),
        }
    }

    /// Gives a file one name more.
    pub fn link(&mut self, number: u32, name: &str) -> Result<(), AllocError> {
        let Some(file) = self.files.get(number as usize) else {
            return Err(AllocError);
        };
        let Some(names) = file.names.checked_add(1) else {
            return Err(AllocError);
        };
        self.give(name, number)?;
        self.set_names(number, names);
        Ok(())
    }

    fn set_names(&mut self, number: u32, names: u32) {
        if let Some(file) = self.files.get_mut(number as usize) {
            file.names = names;
        }
    }

    /// Takes a name away. A file that has no other is removed.
    pub fn take<R: Files<File = F>>(&mut self, rt: &R, name: &str) -> Result<(), Fault> {
        let Some(number) = self.names.remove(name) else {
            return Ok(());
        };
        let names = match self.files.get(number as usize) {
            Some(file) => file.names.saturating_sub(1),
            None => 0,
        };
        self.set_names(number, names);
        if names == 0 {
            fs::remove_file(rt, self.text_of(number))?;
        }
        Ok(())
    }

    /// Adds bytes to a file.
    pub fn append<R: Files<File = F>>(
        &mut self,
        rt: &R,
        number: u32,
        bytes: &[u8],
    ) -> Result<(), Fault> {
        self.synced = 0;
        self.bytes = self.bytes.saturating_add(bytes.len() as u64);
        if number as usize + 1 == self.files.len() {
            if let Some((file, len)) = &mut self.last {
                extend(file, *len, bytes)?;
                *len = len.saturating_add(bytes.len() as u64);
                return Ok(());
            }
        }
        let _ = extend_leaf(rt, self.text_of(number), bytes)?;
        Ok(())
    }

    /// Syncs all young files, and then gives them their names.
    pub fn settle<R: Files<File = F>, S: Syncer>(&mut self, rt: &R, syncer: &S) -> Result<(), Fault>
        ensures { OnOk result (IsSettled self.new) }
    {
        self.sync(syncer)?;
        self.show(rt)
    }

    // Syncs all files that are to have names.
    fn sync<S: Syncer>(&mut self, syncer: &S) -> Result<(), Fault>
        ensures { OnOk result (AreSynced self.new) }
    {
        self.last = None;
        let used = self.files.len().min(self.shares.len());
        if sync_files(syncer, &self.files, &mut self.shares[..used]) {
            self.synced = self.files.len();
            Ok(())
        } else {
            Err(Fault)
        }
    }

    // Gives the files their names.
    fn show<R: Files<File = F>>(&mut self, rt: &R) -> Result<(), Fault>
        requires { AreSynced self.old }
        ensures { OnOk result (IsSettled self.new) }
    {
        for (name, number) in &self.names {
            show_name(rt, name.as_str(), *number, &mut self.files, &mut self.text)?;
        }
        self.names.clear();
        self.files.clear();
        self.synced = 0;
        self.bytes = 0;
        Ok(())
    }
}

// Whether all files that are to have names were synced.
fn sync_files<S: Syncer>(syncer: &S, files: &[YoungFile], shares: &mut [Share]) -> bool {
    for share in shares.iter_mut() {
        share.begin();
    }
    syncer.sync(files, shares);
    shares.iter().all(Share::is_synced)
}

// Gives a file one of its names; the last one takes it out of the reserved place.
fn show_name<R: Files>(
    rt: &R,
    name: &str,
    number: u32,
    files: &mut [YoungFile],
    text: &mut HostPath,
) -> Result<(), Fault> {
    let Some(file) = files.get_mut(number as usize) else {
        return Err(Fault);
    };
    spell_young(number, text);
    if file.names > 1 {
        file.names -= 1;
        link_or_copy(rt, text.as_str(), name)
    } else {
        rename(rt, text.as_str(), name)
    }
}

fn write_new<R: Files>(rt: &R, text: &str, bytes: &[u8]) -> Result<R::File, Fault> {
    let mut file = new_file(rt, text)?;
    file.write_all(bytes)?;
    Ok(file)
}
