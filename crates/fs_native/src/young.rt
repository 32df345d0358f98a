//! Young leaves: made in the reserved place, and not yet synced and shown under their names.
ghost use Rattle.std.specs.Prelude.{◌≡◌, ◌≢◌, ◌<◌, ◌≤◌, ◌↔◌, vec_len, IsTrue, IfErr, OnOk};
ghost use Rattle.fs_trait.specs.Effect.{OfNone};
ghost use Rattle.fs_native.specs.Young.{AreSynced, IsSettled};

use fs_trait::FsErr;
use host_files::{Fault, HostPath, Share, Syncer, YoungFile, extend_leaf, rename, sync};
use native_nodes::{
    Attributes, LINK_MODE, PLACE_TEXT, add_bytes, finish, new_link, new_private, spell_young,
};
use ost_types::NoMemory;
use std::alloc::{AllocError, Global};
use std::collections::BTreeMap;
use std::fs;
use std::fs::OpenFile;
use std::io::Write;
use std::rt::Files;

/// No more leaves are young at once.
pub const MOST_LEAVES: usize = 1024;

/// Nor are more bytes, once a call has ended.
pub const MOST_BYTES: u64 = 1 << 26;

// Nothing to be synced.
const NOTHING: YoungFile = YoungFile {
    names: 0,
    is_link: false,
};

/// A leaf in the reserved place. A file has its permissions there only once it is to be synced.
#[derive(Clone, Copy, Debug, PartialEq, Eq)]
pub struct YoungLeaf {
    /// How many names it is to have.
    pub names: u32,
    pub attributes: Attributes,
}

impl YoungLeaf {
    pub fn is_link(self) -> bool
        ensures { IsTrue result ↔ (self.attributes.mode ≡ 41471) }
    {
        self.attributes.mode == LINK_MODE
    }

    // What is to be synced of it.
    fn to_sync(self) -> YoungFile
        ensures link { self.attributes.mode ≡ 41471 → result.names ≡ 0 }
        ensures file { self.attributes.mode ≢ 41471 → result.names ≡ self.names }
    {
        if self.is_link() {
            NOTHING
        } else {
            YoungFile {
                names: self.names,
                is_link: false,
            }
        }
    }
}

/// The young leaves.
#[derive(Drop)]
pub struct Young<F> {
    alloc: Global,
    // Their names, by the texts, each with the number of its leaf.
    names: BTreeMap<String, u32>,
    // The leaves, by their numbers.
    leaves: Vec<YoungLeaf>,
    // The first so many were synced after they were written last.
    synced: usize,
    // How many bytes were written to them.
    bytes: u64,
    // The last leaf, and its length, where it is a file that is open for adding bytes.
    last: Option<(F, u64)>,
    // The text of one of them.
    text: HostPath,
    // What is to be synced of them, by their numbers, and in which shares.
    files: Vec<YoungFile>,
    shares: Vec<Share>,
}

impl<F: OpenFile + Write + Drop> Young<F> {
    pub fn new(alloc: Global) -> Result<Young<F>, NoMemory> {
        Ok(Young {
            alloc,
            names: BTreeMap::new(alloc),
            leaves: Vec::with_capacity(alloc, MOST_LEAVES)?,
            synced: 0,
            bytes: 0,
            last: None,
            text: HostPath::new(alloc)?,
            files: Vec::from_elem(alloc, NOTHING, MOST_LEAVES)?,
            shares: Share::all(alloc)?,
        })
    }

    /// The number of the leaf that is to have this name.
    pub fn find(&self, text: &str) -> Option<u32> {
        self.names.get(text).copied()
    }

    /// The attributes that the leaf of a number is to have.
    pub fn attributes(&self, number: u32) -> Option<Attributes> {
        self.leaves.get(number as usize).map(|leaf| leaf.attributes)
    }

    /// Whether the leaf of a number is a regular file.
    pub fn is_file(&self, number: u32) -> bool {
        match self.leaves.get(number as usize) {
            Some(leaf) => !leaf.is_link(),
            None => false,
        }
    }

    /// Whether no leaf can be added.
    pub fn is_full(&self) -> bool
        ensures { IsTrue result ↔ (1024 ≤ vec_len self.now.leaves) }
    {
        self.leaves.len() >= MOST_LEAVES
    }

    /// Whether more bytes are young than may be.
    pub fn is_heavy(&self) -> bool {
        self.bytes > MOST_BYTES
    }

    // Where the leaf of a number lies.
    fn text_of(&mut self, number: u32) -> &str {
        spell_young(number, &mut self.text);
        self.text.as_str()
    }

    /// Makes an empty file that is to have a name.
    pub fn add_file<R: Files<File = F>>(
        &mut self,
        rt: &R,
        name: &str,
        attributes: Attributes,
    ) -> Result<(), FsErr>
        requires { vec_len self.old.leaves < 1024 }
        ensures { IfErr result OfNone }
    {
        let number = self.add(name, attributes)?;
        match new_private(rt, self.text_of(number), attributes) {
            Ok(file) => {
                self.last = Some((file, 0));
                Ok(())
            }
            Err(_) => self.give_up(rt, name),
        }
    }

    /// Makes a symbolic link that is to have a name.
    pub fn add_link<R: Files<File = F>>(
        &mut self,
        rt: &R,
        name: &str,
        target: &str,
        attributes: Attributes,
    ) -> Result<(), FsErr>
        requires { vec_len self.old.leaves < 1024 }
        ensures { IfErr result OfNone }
    {
        let number = self.add(name, attributes)?;
        match new_link(rt, self.text_of(number), target, attributes) {
            Ok(()) => Ok(()),
            Err(_) => self.give_up(rt, name),
        }
    }

    // Notes a leaf that is to have a name, and gives its number.
    fn add(&mut self, name: &str, attributes: Attributes) -> Result<u32, FsErr>
        requires { vec_len self.old.leaves < 1024 }
        ensures { IfErr result OfNone }
    {
        let number = self.leaves.len() as u32;
        self.name(name, number)?;
        self.synced = 0;
        self.last = None;
        let leaf = YoungLeaf {
            names: 1,
            attributes,
        };
        if self.leaves.push(leaf).is_err() {
            self.names.remove(name);
            return Err(FsErr::NoMemory);
        }
        Ok(number)
    }

    // Takes back a leaf that couldn't be made.
    fn give_up<R: Files<File = F>>(&mut self, rt: &R, name: &str) -> Result<(), FsErr>
        ensures { IfErr result OfNone }
    {
        let _ = self.take(rt, name);
        Err(FsErr::Failed)
    }

    // Notes a name of a leaf.
    fn name(&mut self, name: &str, number: u32) -> Result<(), AllocError> {
        let name = String::from_str(self.alloc, name)?;
        match self.names.insert(name, number) {
            Ok(_) => Ok(()),
            Err(_) => Err(AllocError),
        }
    }

    /// Gives a leaf one name more.
    pub fn link(&mut self, number: u32, name: &str) -> Result<(), AllocError> {
        let Some(leaf) = self.leaves.get(number as usize) else {
            return Err(AllocError);
        };
        let Some(names) = leaf.names.checked_add(1) else {
            return Err(AllocError);
        };
        self.name(name, number)?;
        self.set_names(number, names);
        Ok(())
    }

    fn set_names(&mut self, number: u32, names: u32) {
        if let Some(leaf) = self.leaves.get_mut(number as usize) {
            leaf.names = names;
        }
    }

    /// Takes a name away. A leaf that has no other is removed.
    pub fn take<R: Files<File = F>>(&mut self, rt: &R, name: &str) -> Result<(), Fault> {
        let Some(number) = self.names.remove(name) else {
            return Ok(());
        };
        let names = match self.leaves.get(number as usize) {
            Some(leaf) => leaf.names.saturating_sub(1),
            None => 0,
        };
        self.set_names(number, names);
        if names == 0 {
            fs::remove_file(rt, self.text_of(number))?;
        }
        Ok(())
    }

    /// Adds bytes to a file.
    pub fn append<R: Files<File = F>>(
        &mut self,
        rt: &R,
        number: u32,
        bytes: &[u8],
    ) -> Result<(), Fault> {
        self.synced = 0;
        self.bytes = self.bytes.saturating_add(bytes.len() as u64);
        if number as usize + 1 == self.leaves.len() {
            if let Some((file, len)) = &mut self.last {
                add_bytes(file, *len, bytes)?;
                *len = len.saturating_add(bytes.len() as u64);
                return Ok(());
            }
        }
        let _ = extend_leaf(rt, self.text_of(number), bytes)?;
        Ok(())
    }

    /// Syncs all young leaves, and then gives them their names.
    pub fn settle<R: Files<File = F>, S: Syncer>(&mut self, rt: &R, syncer: &S) -> Result<(), Fault>
        ensures { OnOk result (IsSettled self.new) }
    {
        self.finish(rt)?;
        self.sync(syncer)?;
        self.show(rt)
    }

    // Gives all leaves that are to have names their attributes. What links have outlasts a crash with the folder that they are made in.
    fn finish<R: Files<File = F>>(&mut self, rt: &R) -> Result<(), Fault> {
        self.last = None;
        if finish_leaves(rt, &self.leaves, &mut self.text)? {
            sync(rt, PLACE_TEXT)?;
        }
        Ok(())
    }

    // Syncs all files that are to have names.
    fn sync<S: Syncer>(&mut self, syncer: &S) -> Result<(), Fault>
        ensures { OnOk result (AreSynced self.new) }
    {
        list_files(&self.leaves, &mut self.files);
        let used = self.leaves.len().min(self.shares.len());
        if sync_files(syncer, &self.files, &mut self.shares[..used]) {
            self.synced = self.leaves.len();
            Ok(())
        } else {
            Err(Fault)
        }
    }

    // Gives the leaves their names.
    fn show<R: Files<File = F>>(&mut self, rt: &R) -> Result<(), Fault>
        requires { AreSynced self.old }
        ensures { OnOk result (IsSettled self.new) }
    {
        for (name, number) in &self.names {
            show_name(rt, name.as_str(), *number, &mut self.leaves, &mut self.text)?;
        }
        self.names.clear();
        self.leaves.clear();
        self.synced = 0;
        self.bytes = 0;
        Ok(())
    }
}

// Gives each file its attributes, and answers whether there are links.
fn finish_leaves<R: Files>(
    rt: &R,
    leaves: &[YoungLeaf],
    text: &mut HostPath,
) -> Result<bool, Fault> {
    let mut number = 0u32;
    let mut has_links = false;
    for leaf in leaves {
        if leaf.names > 0 && leaf.is_link() {
            has_links = true;
        } else if leaf.names > 0 {
            spell_young(number, text);
            finish(rt, text.as_str(), leaf.attributes)?;
        }
        number = number.saturating_add(1);
    }
    Ok(has_links)
}

// Lists what is to be synced: the files that are to have names. A link isn't, since the machine would follow it.
fn list_files(leaves: &[YoungLeaf], files: &mut [YoungFile]) {
    let mut number = 0usize;
    for file in files.iter_mut() {
        *file = match leaves.get(number) {
            Some(leaf) => leaf.to_sync(),
            None => NOTHING,
        };
        number = number.saturating_add(1);
    }
}

// Whether all files that are to have names were synced.
fn sync_files<S: Syncer>(syncer: &S, files: &[YoungFile], shares: &mut [Share]) -> bool {
    for share in shares.iter_mut() {
        share.begin();
    }
    syncer.sync(files, shares);
    shares.iter().all(Share::is_synced)
}

// Gives a leaf one of its names; the last one takes it out of the reserved place.
fn show_name<R: Files>(
    rt: &R,
    name: &str,
    number: u32,
    leaves: &mut [YoungLeaf],
    text: &mut HostPath,
) -> Result<(), Fault> {
    let Some(leaf) = leaves.get_mut(number as usize) else {
        return Err(Fault);
    };
    spell_young(number, text);
    if leaf.names > 1 {
        leaf.names -= 1;
        Ok(fs::hard_link(rt, text.as_str(), name)?)
    } else {
        rename(rt, text.as_str(), name)
    }
}
