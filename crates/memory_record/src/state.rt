ghost use Rattle.std.specs.Prelude.{◌≡◌, [], IfOk, IfSome, OnOk};
ghost use Rattle.ost_types.specs.Path.{Path, AreNames};
ghost use Rattle.ost_types.specs.Flat.{flat};
ghost use Rattle.fs_trait.specs.Effect.{HasNames, IsListing};
ghost use Rattle.fs_trait.specs.View.{View, created, extended, file_synced, all_synced};
ghost use Rattle.memory_record.specs.Changes.{apply, view_of, spoiled};
ghost use Rattle.memory_record.specs.Seen.{value_of};
ghost use Rattle.memory_record.specs.Tied.{Depicts};

use crate::change::Change;
use crate::found::{Found, root_meta};
use memory_table::{File, Table};
use ost_types::{Meta, Names, NoMemory, TryCopy};
use places::Place;
use std::alloc::Global;
use std::collections::BTreeSet;

/// What changes came to: what stands at each path, each file, and the inodes of the files that aren't synced. Where a call
/// answers that there is no memory, it isn't of use any more.
#[derive(Drop)]
pub struct State {
    alloc: Global,
    table: Table,
    unsynced: BTreeSet<u64>,
}

impl State {
    /// The root folder alone.
    pub fn new(alloc: Global) -> State
        ensures { Depicts result (view_of []) }
    {
        State {
            alloc,
            table: Table::new(alloc, root_meta(alloc)),
            unsynced: BTreeSet::new(alloc),
        }
    }

    /// What stands at a path.
    pub fn value(&self, path: &[u8]) -> Found<'_>
        ensures { (v : View) (p : Path) → Depicts self.now v → AreNames p → path.now ≡ flat p → value_of result ≡ v.now.at p }
    {
        Found::or_absent(self.table.value(path))
    }

    /// A file.
    pub fn file(&self, inode: u64) -> Option<&File>
        ensures { (v : View) → Depicts self.now v → IfSome result (λ f. (f.now.meta ≡ v.now.meta inode) × (f.now.bytes ≡ v.now.bytes inode)) }
    {
        self.table.file(inode)
    }

    /// Whether a folder can't be removed: it is the root, or has names.
    pub fn has_names(&self, folder: &Place) -> bool
        ensures { (v : View) → Depicts self.now v → HasNames result folder.now v.now }
    {
        if folder.text().is_empty() {
            return true;
        }
        self.table.has_names(folder)
    }

    /// The names directly in a folder, ascending.
    pub fn names_in(&self, folder: &Place) -> Result<Names, NoMemory>
        ensures { IfOk result (λ names. (v : View) → Depicts self.now v → IsListing v.now folder.now names) }
    {
        self.table.names_in(folder)
    }

    /// One change more.
    pub fn follow(&mut self, change: &Change) -> Result<(), NoMemory>
        ensures { OnOk result ((v : View) → Depicts self.old v → Depicts self.new (apply change.now v)) }
    {
        match change {
            Change::Name(place, value) => self.table.name(place, value.copy()?),
            Change::Create(place, meta, inode) => self.create(place, meta.copy()?, *inode),
            Change::Move(from, to) => self.table.rename(from, to),
            Change::Extend(inode, bytes) => self.extend(*inode, bytes.as_slice()),
            Change::SyncFile(inode) => {
                self.sync_file(*inode);
                Ok(())
            }
            Change::SyncAll => {
                self.sync_all();
                Ok(())
            }
            Change::Crash(fill) => self.spoil(*fill),
            Change::Nothing => Ok(()),
            Change::SyncFolder(_) => Ok(()),
        }
    }

    fn create(&mut self, place: &Place, meta: Meta, inode: u64) -> Result<(), NoMemory>
        ensures { OnOk result ((v : View) → Depicts self.old v → Depicts self.new (created place.now meta inode v)) }
    {
        self.unsynced.insert(inode)?;
        self.table.create(place, meta, inode)
    }

    fn extend(&mut self, inode: u64, bytes: &[u8]) -> Result<(), NoMemory>
        ensures { OnOk result ((v : View) → Depicts self.old v → Depicts self.new (extended inode bytes.now v)) }
    {
        self.unsynced.insert(inode)?;
        self.table.extend(inode, bytes)
    }

    fn sync_file(&mut self, inode: u64)
        ensures { (v : View) → Depicts self.old v → Depicts self.new (file_synced inode v) }
    {
        self.unsynced.remove(&inode);
    }

    fn sync_all(&mut self)
        ensures { (v : View) → Depicts self.old v → Depicts self.new (all_synced v) }
    {
        self.unsynced = BTreeSet::new(self.alloc);
    }

    fn spoil(&mut self, fill: u8) -> Result<(), NoMemory>
        ensures { OnOk result ((v : View) → Depicts self.old v → Depicts self.new (spoiled fill v)) }
    {
        while let Some(inode) = self.unsynced.pop_first() {
            self.table.spoil(inode, fill)?;
        }
        Ok(())
    }
}
