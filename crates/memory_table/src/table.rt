ghost use Rattle.std.specs.Prelude.{◌≡◌, ◌≢◌, ◌++◌, [], List, ℕ, IfOk, IfSome, OnOk, option_copied};
ghost use Rattle.ost_types.specs.Path.{Path, AreNames, under};
ghost use Rattle.ost_types.specs.Flat.{flat};
ghost use Rattle.fs_trait.specs.View.{Disk, set_at, set_meta, set_bytes};
ghost use Rattle.fs_trait.specs.Effect.{HasNames, IsListing};
ghost use Rattle.fs_trait.specs.declared.types.Value.TheVariants as value;
ghost use Rattle.memory_table.specs.Filled.{filled};
ghost use Rattle.memory_table.specs.Ties.{Ties, present};

use crate::filling::spoil;
use crate::tree::Tree;
use fs_trait::Value;
use ost_types::{Bytes, Meta, Names, NoMemory, TryCopy};
use places::Place;
use std::alloc::Global;
use std::collections::BTreeMap;

/// A file's attributes, and what it holds.
#[derive(Drop)]
pub struct File {
    pub meta: Meta,
    pub bytes: Bytes,
}

/// What stands at each path, and each file by its inode's number. Where a call answers that there is no memory, the table
/// isn't of use any more.
#[derive(Drop)]
pub struct Table {
    alloc: Global,
    names: Tree<Value>,
    files: BTreeMap<u64, File>,
}

impl Table {
    /// The root folder alone, with these attributes.
    pub fn new(alloc: Global, root: Meta) -> Table
        ensures { (d : Disk) → d.at [] ≡ value.Folder root → ((f : Path) (x : List ℕ) → d.at (under f x) ≡ value.Absent) → Ties result d }
    {
        Table {
            alloc,
            names: Tree::new(alloc, Some(Value::Folder(root))),
            files: BTreeMap::new(alloc),
        }
    }

    /// What stands at a path, or None where nothing does.
    pub fn value(&self, text: &[u8]) -> Option<&Value>
        ensures { (d : Disk) (p : Path) → Ties self.now d → AreNames p → text.now ≡ flat p → option_copied result ≡ present (d.at p) }
    {
        self.names.get(text)
    }

    /// The file of this inode.
    pub fn file(&self, inode: u64) -> Option<&File>
        ensures { (d : Disk) → Ties self.now d → IfSome result (λ f. (f.now.meta ≡ d.meta inode) × (f.now.bytes ≡ d.bytes inode)) }
    {
        self.files.get(&inode)
    }

    /// Another value stands at a path.
    pub fn name(&mut self, place: &Place, value: Value) -> Result<(), NoMemory>
        ensures { OnOk result ((d : Disk) → Ties self.old d → Ties self.new (set_at place.now value d)) }
    {
        match value {
            Value::Absent => self.names.remove(place),
            Value::Folder(meta) => self.names.put(place, Value::Folder(meta)),
            Value::Link(meta, target) => self.names.put(place, Value::Link(meta, target)),
            Value::File(inode) => self.names.put(place, Value::File(inode)),
        }
    }

    /// A new empty file stands at a path.
    pub fn create(&mut self, place: &Place, meta: Meta, inode: u64) -> Result<(), NoMemory>
        ensures { OnOk result ((d : Disk) → Ties self.old d → Ties self.new (set_at place.now (value.File inode) (set_bytes inode [] (set_meta inode meta d)))) }
    {
        let bytes = Bytes::new(self.alloc);
        self.files.insert(inode, File { meta, bytes })?;
        self.name(place, Value::File(inode))
    }

    /// What stood at a path stands at another one.
    pub fn rename(&mut self, from: &Place, to: &Place) -> Result<(), NoMemory>
        ensures { OnOk result ((d : Disk) → Ties self.old d → Ties self.new (set_at from.now value.Absent (set_at to.now (d.at from.now) d))) }
    {
        let value = self.copied(from)?;
        self.name(to, value)?;
        self.name(from, Value::Absent)
    }

    fn copied(&self, place: &Place) -> Result<Value, NoMemory>
        ensures { IfOk result (λ x. (d : Disk) → Ties self.now d → x ≡ d.at place.now) }
    {
        match self.value(place.text()) {
            Some(value) => value.copy(),
            None => Ok(Value::Absent),
        }
    }

    /// A file holds more bytes.
    pub fn extend(&mut self, inode: u64, more: &[u8]) -> Result<(), NoMemory>
        ensures { OnOk result ((d : Disk) → Ties self.old d → Ties self.new (set_bytes inode (d.bytes inode ++ more.now) d)) }
    {
        if let Some(file) = self.files.remove(&inode) {
            let File { meta, mut bytes } = file;
            bytes.append(more)?;
            self.files.insert(inode, File { meta, bytes })?;
        }
        Ok(())
    }

    /// Each byte of a file is XORed with one byte.
    pub fn spoil(&mut self, inode: u64, fill: u8) -> Result<(), NoMemory>
        ensures { OnOk result ((d : Disk) → Ties self.old d → Ties self.new (set_bytes inode (filled fill (d.bytes inode)) d)) }
    {
        if let Some(file) = self.files.remove(&inode) {
            let File { meta, bytes } = file;
            let spoiled = spoil(self.alloc, &bytes, fill)?;
            self.files.insert(
                inode,
                File {
                    meta,
                    bytes: spoiled,
                },
            )?;
        }
        Ok(())
    }

    /// Whether there are names in a folder that isn't the root.
    pub fn has_names(&self, folder: &Place) -> bool
        ensures { (d : Disk) → Ties self.now d → folder.now ≢ [] → HasNames result folder.now d }
    {
        self.names.has_names(folder)
    }

    /// The names directly in a folder, ascending.
    pub fn names_in(&self, folder: &Place) -> Result<Names, NoMemory>
        ensures { IfOk result (λ names. (d : Disk) → Ties self.now d → IsListing d folder.now names) }
    {
        self.names.names_in(folder)
    }
}
