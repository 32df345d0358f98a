//! What was found of the objects, and what is kept of those that were read.
ghost use Rattle.std.specs.Prelude.{◌≡◌, Contains, OnOk, IfSome};
ghost use Rattle.fs_trait.specs.View.{Disk};
ghost use Rattle.store_check.specs.Keeping.{Adds, AreKept, AreStored};

use crate::group::Entry;
use ost_types::{Bytes, NoMemory, ObjName};
use std::alloc::Global;

/// No more bytes of objects are kept: 64 MiB.
const KEPT_BYTES: usize = 67_108_864;

/// The objects of a repository, each of which is what its name says.
#[derive(Drop)]
pub struct SoundObjects {
    /// Ascending, each once.
    pub names: Vec<ObjName>,
    pub kept: Kept,
}

/// Commits and entries of folders that were read and found sound, so that they needn't be read again: at most 64 MiB of their
/// bytes.
#[derive(Drop)]
pub struct Kept {
    /// Ascending by their names.
    pub objects: Vec<(ObjName, Bytes)>,
    /// How many bytes more are kept.
    pub room: usize,
}

impl Kept {
    /// None.
    pub fn new(alloc: Global) -> Kept
        ensures { (d : Disk) → AreKept d result }
    {
        Kept {
            objects: Vec::new(alloc),
            room: KEPT_BYTES,
        }
    }

    /// The bytes of the object of this name, if they are kept.
    pub fn find(&self, name: &ObjName) -> Option<&[u8]>
        ensures { IfSome result (λ bytes. Contains self.now.objects.items (name.now, bytes.now)) }
    {
        let objects = self.objects.as_slice();
        match objects.binary_search_by(|object| object.0.cmp(name)) {
            Ok(at) => {
                let (found, bytes) = &objects[at];
                if found == name {
                    Some(bytes.as_slice())
                } else {
                    None
                }
            }
            Err(_) => None,
        }
    }

    /// Keeps the bytes that these entries have left, in their order, as far as there is room.
    pub fn add_all(&mut self, entries: Vec<Entry>) -> Result<(), NoMemory>
        ensures { (d : Disk) → AreKept d self.old → AreStored d entries.items → OnOk result (AreKept d self.new) }
    {
        for entry in entries {
            let Entry { name, bytes, .. } = entry;
            if let Some(bytes) = bytes {
                self.add(name, bytes)?;
            }
        }
        Ok(())
    }

    /// Keeps the object of this name, if there is room for its bytes.
    fn add(&mut self, name: ObjName, bytes: Bytes) -> Result<(), NoMemory>
        ensures { OnOk result (Adds self.old self.new name bytes) }
    {
        let size = bytes.as_slice().len();
        if size > self.room {
            return Ok(());
        }
        self.objects.push((name, bytes))?;
        self.room -= size;
        Ok(())
    }
}
