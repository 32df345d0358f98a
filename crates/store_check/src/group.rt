//! Objects that are read one after the other, and then looked into at once.
ghost use Rattle.std.specs.Prelude.{◌≡◌, ◌≤◌, ◌<◌, ℕ, length, slice_index_or, Some, None, IfOk, IfErr};
ghost use Rattle.ost_objects.specs.Object.{HasForm};
ghost use Rattle.fs_trait.specs.View.{View};
ghost use Rattle.fs_trait.specs.Effect.{IsQuiet};
ghost use Rattle.obj_store.specs.Lookup.{HasCauseOf, fault_of};
ghost use Rattle.store_check.specs.declared.group.Entry.{Entry as EntryValue};
ghost use Rattle.store_check.specs.Groups.{IsGroup, IsRead, IsStopped, IsWithin, StopsBy, Tests, kept_of};

use fs_trait::Fs;
use obj_store::{LoadFault, open_object};
use ost_objects::{CheckFault, Checked, check};
use ost_types::{Bytes, Kind, Limits, NoMemory, ObjName};
use std::alloc::Global;
use std::thread::{Threads, available_parallelism, for_each_mut};

/// No more objects are read into a group that has so many bytes: 16 MiB.
const GROUP: usize = 16_777_216;

/// A group with fewer bytes is looked into by one thread.
const SHARED: usize = 262_144;

/// What stands at an object's path, and what is wrong with it.
#[derive(Drop)]
pub struct Entry {
    pub name: ObjName,
    /// As an object of its kind; None where nothing stands there. Once they were looked into, only those that are kept are left.
    pub bytes: Option<Bytes>,
    pub fault: Option<CheckFault>,
}

impl Entry {
    fn size(&self) -> usize {
        match &self.bytes {
            Some(bytes) => bytes.as_slice().len(),
            None => 0,
        }
    }

    /// Looks into the bytes, and lets them go unless they are kept.
    fn test(&mut self, alloc: Global, limits: &Limits)
        ensures { Tests limits.now.content self.old self.new }
    {
        if let Some(bytes) = self.bytes.take() {
            match check(alloc, self.name, bytes, limits) {
                Ok(object) => {
                    self.fault = no_fault(&object);
                    self.bytes = kept(object);
                }
                Err(refused) => self.fault = Some(refused.1),
            }
        }
    }
}

/// The bytes of a commit, or of the entries of a folder: those are looked into again for what they name.
fn kept(object: Checked) -> Option<Bytes>
    ensures { result ≡ kept_of object.name.kind object.bytes }
{
    match object.name.kind {
        Kind::Commit => Some(object.into_bytes()),
        Kind::DirTree => Some(object.into_bytes()),
        Kind::DirMeta => None,
        Kind::File => None,
    }
}

/// Nothing is wrong with a checked object.
pub fn no_fault(object: &Checked) -> Option<CheckFault>
    ensures none { result ≡ None }
    ensures formed { HasForm object.now.name.kind object.now.limit object.now.bytes }
{
    let _bytes = object.bytes();
    None
}

/// Objects that were read, and why the next one couldn't be, if that ended the group.
#[derive(Drop)]
pub struct Group {
    pub entries: Vec<Entry>,
    pub stop: Option<LoadFault>,
}

/// The objects of these names from this place on: at least one, if it can be read, and so many more that their bytes are about
/// 16 MiB.
pub fn read_group<F: Fs>(
    alloc: Global,
    fs: &mut F,
    names: &[ObjName],
    from: usize,
) -> Result<Group, NoMemory>
    requires { from < length names.now }
    ensures told { (v : View) → F.view fs.old ≡ Some v → IfOk result (IsGroup v.now names.now from) }
    ensures some { IfOk result (λ group. group.stop ≡ None → 0 < length group.entries.items) }
    ensures within { IfOk result (IsWithin names.now from) }
    ensures quiet { IsQuiet (F.clock fs.old) (F.clock fs.new) (F.was fs.old) (F.was fs.new) (F.view fs.old) (F.view fs.new) }
    ensures keeps_room { F.spare fs.old ≤ F.spare fs.new }
    ensures later { F.faults fs.old ≤ F.faults fs.new }
    ensures cause { IfOk result (λ group. StopsBy (F.faults fs.old) (F.faults fs.new) group.stop) }
{
    let mut size: usize = 0;
    let mut entries = Vec::new(alloc);
    for at in from..names.len() {
        if size >= GROUP {
            return Ok(Group {
                entries,
                stop: None,
            });
        }
        match read(alloc, fs, names[at]) {
            Ok(entry) => {
                size = size.saturating_add(entry.size());
                entries.push(entry)?;
            }
            Err(fault) => {
                return Ok(Group {
                    entries,
                    stop: Some(fault),
                });
            }
        }
    }
    Ok(Group {
        entries,
        stop: None,
    })
}

fn read<F: Fs>(alloc: Global, fs: &mut F, name: ObjName) -> Result<Entry, LoadFault>
    ensures told { (v : View) → F.view fs.old ≡ Some v → IfOk result (λ entry. (entry.name ≡ name) × IsRead v.now entry) }
    ensures stopped { (v : View) → F.view fs.old ≡ Some v → IfErr result (IsStopped v.now name) }
    ensures quiet { IsQuiet (F.clock fs.old) (F.clock fs.new) (F.was fs.old) (F.was fs.new) (F.view fs.old) (F.view fs.new) }
    ensures keeps_room { F.spare fs.old ≤ F.spare fs.new }
    ensures cause { HasCauseOf (F.faults fs.old) (F.faults fs.new) result }
{
    let bytes = open_object(alloc, fs, &name)?;
    Ok(Entry {
        name,
        bytes,
        fault: None,
    })
}

/// Looks into all of them, by as many threads as there are processors where that is worth it.
pub fn test_group<R: Threads + Sync>(
    rt: &R,
    alloc: Global,
    limits: &Limits,
    entries: Vec<Entry>,
) -> Vec<Entry>
    ensures len { length result.items ≡ length entries.items }
    ensures each { (i : ℕ) (d : EntryValue) → i < length entries.items → Tests limits.now.content (slice_index_or entries.items i d) (slice_index_or result.items i d) }
{
    let mut entries = entries;
    let threads = if is_worth_threads(&entries) {
        processors(rt)
    } else {
        1
    };
    for_each_mut(
        rt,
        &mut entries,
        threads,
        &|_, entry| entry.test(alloc, limits),
    );
    entries
}

fn is_worth_threads(group: &[Entry]) -> bool {
    let mut size: usize = 0;
    for entry in group {
        size = size.saturating_add(entry.size());
    }
    size >= SHARED
}

/// What is told of a fault that was found.
pub fn load_fault(fault: CheckFault) -> LoadFault
    ensures { result ≡ fault_of fault }
{
    match fault {
        CheckFault::NoMemory => LoadFault::NoMemory,
        fault => LoadFault::Damaged(fault),
    }
}

/// How many processors there are, or one where the machine doesn't tell.
fn processors(rt: &impl Threads) -> usize
    ensures { 0 < result }
{
    match available_parallelism(rt) {
        Ok(count) => count.get(),
        Err(_) => 1,
    }
}
