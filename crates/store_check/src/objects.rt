//! Each object is what its name says.
ghost use Rattle.std.specs.Prelude.{◌≡◌, ◌≤◌, ◌<◌, ◌+◌, length, Some, OnOk, IfOk, IfErr};
ghost use Rattle.fs_trait.specs.View.{View};
ghost use Rattle.fs_trait.specs.Effect.{IsQuiet};
ghost use Rattle.store_check.specs.declared.fault.ObjectsFault.TheVariants as objects;
ghost use Rattle.store_check.specs.Faults.{HasCauseOf, ObjectsFailed, FailedBy};
ghost use Rattle.store_check.specs.Groups.{AreSoundBefore, AreTested, ChecksEntries, ChecksGroup, IsDone, IsNewFailure, IsWrong, TellsRefusal, TellsStop};
ghost use Rattle.store_check.specs.Listing.{AreAll};
ghost use Rattle.store_check.specs.Objects.{ChecksEach, ChecksObjects, Finds, IsFirstOf};

use crate::fault::ObjectsFault;
use crate::group::{Entry, load_fault, no_fault, read_group, test_group};
use crate::kept::{Kept, SoundObjects};
use crate::listing::list_objects;
use fs_trait::Fs;
use obj_store::{LoadFault, load};
use ost_objects::CheckFault;
use ost_types::{Kind, Limits, NoMemory, ObjName};
use std::alloc::Global;
use std::thread::Threads;

/// The names of all objects, ascending, each once. What stands at the path of each has the name, and reads as its kind; else the
/// first is told that doesn't, by its path. Where there are more than the limit, that alone is told.
///
/// Each object is read once, and no more than 16 MiB of them, or one object, at a time; these are hashed by as many threads as there
/// are processors. Of commits and entries of folders up to 64 MiB are kept, in the order of their names. Nothing is written.
pub fn check_objects<R: Threads + Sync, F: Fs>(
    rt: &R,
    alloc: Global,
    fs: &mut F,
    limits: &Limits,
) -> Result<SoundObjects, ObjectsFault>
    ensures told { (v : View) → F.view fs.old ≡ Some v → ChecksObjects v.now limits.now result }
    ensures quiet { IsQuiet (F.clock fs.old) (F.clock fs.new) (F.was fs.old) (F.was fs.new) (F.view fs.old) (F.view fs.new) }
    ensures keeps_room { F.spare fs.old ≤ F.spare fs.new }
    ensures cause { HasCauseOf (F.faults fs.old) (F.faults fs.new) (ObjectsFailed result) }
{
    let names = list_objects(alloc, fs)?;
    check_number(names.len(), limits)?;
    let kept = check_each(rt, alloc, fs, names.as_slice(), limits)?;
    Ok(SoundObjects { names, kept })
}

/// Whether so many objects aren't more than the limit.
fn check_number(number: usize, limits: &Limits) -> Result<(), ObjectsFault>
    ensures few { OnOk result (number ≤ limits.now.objects) }
    ensures many { IfErr result (λ f. (f ≡ objects.TooMany (limits.now.objects + 1)) × (limits.now.objects < number)) }
{
    if number > limits.objects as usize {
        return Err(ObjectsFault::TooMany(limits.objects as u64 + 1));
    }
    Ok(())
}

fn check_each<R: Threads + Sync, F: Fs>(
    rt: &R,
    alloc: Global,
    fs: &mut F,
    names: &[ObjName],
    limits: &Limits,
) -> Result<Kept, ObjectsFault>
    requires { (v : View) → F.view fs.old ≡ Some v → AreAll v.now names.now }
    ensures told { (v : View) → F.view fs.old ≡ Some v → ChecksEach v.now limits.now.content result }
    ensures quiet { IsQuiet (F.clock fs.old) (F.clock fs.new) (F.was fs.old) (F.was fs.new) (F.view fs.old) (F.view fs.new) }
    ensures keeps_room { F.spare fs.old ≤ F.spare fs.new }
    ensures cause { HasCauseOf (F.faults fs.old) (F.faults fs.new) (ObjectsFailed result) }
{
    let mut kept = Kept::new(alloc);
    let mut from = 0;
    'groups: while from < names.len() {
        from = check_group(rt, alloc, fs, names, from, &mut kept, limits)?;
    }
    Ok(kept)
}

/// The place of the name behind a group that is whole, or the first fault.
fn check_group<R: Threads + Sync, F: Fs>(
    rt: &R,
    alloc: Global,
    fs: &mut F,
    names: &[ObjName],
    from: usize,
    kept: &mut Kept,
    limits: &Limits,
) -> Result<usize, ObjectsFault>
    requires within { from < length names.now }
    requires all { (v : View) → F.view fs.old ≡ Some v → AreAll v.now names.now }
    requires before { (v : View) → F.view fs.old ≡ Some v → IsDone v.now limits.now.content names.now from kept.old }
    ensures next { IfOk result (λ next. (from < next) × (next ≤ length names.now)) }
    ensures told { (v : View) → F.view fs.old ≡ Some v → ChecksGroup v.now limits.now.content names.now kept.new result }
    ensures quiet { IsQuiet (F.clock fs.old) (F.clock fs.new) (F.was fs.old) (F.was fs.new) (F.view fs.old) (F.view fs.new) }
    ensures keeps_room { F.spare fs.old ≤ F.spare fs.new }
    ensures cause { HasCauseOf (F.faults fs.old) (F.faults fs.new) (ObjectsFailed result) }
{
    let group = match read_group(alloc, fs, names, from) {
        Ok(group) => group,
        Err(NoMemory) => return Err(ObjectsFault::NoMemory),
    };
    let stop = group.stop;
    let entries = test_group(rt, alloc, limits, group.entries);
    check_entries(alloc, fs, names, from, &entries, limits)?;
    let next = from + entries.len();
    match stop {
        None => {
            kept.add_all(entries)?;
            Ok(next)
        }
        Some(fault) => Err(stopped(alloc, fs, names[next], fault, limits)),
    }
}

/// The first fault of the entries.
fn check_entries<F: Fs>(
    alloc: Global,
    fs: &mut F,
    _names: &[ObjName],
    _from: usize,
    entries: &[Entry],
    limits: &Limits,
) -> Result<(), ObjectsFault>
    requires all { (v : View) → F.view fs.old ≡ Some v → AreAll v.now _names.now }
    requires before { (v : View) → F.view fs.old ≡ Some v → AreSoundBefore v.now limits.now.content _names.now _from }
    requires tested { (v : View) → F.view fs.old ≡ Some v → AreTested v.now limits.now.content _names.now _from entries.now }
    ensures told { (v : View) → F.view fs.old ≡ Some v → ChecksEntries v.now limits.now.content _names.now (_from + length entries.now) result }
    ensures quiet { IsQuiet (F.clock fs.old) (F.clock fs.new) (F.was fs.old) (F.was fs.new) (F.view fs.old) (F.view fs.new) }
    ensures keeps_room { F.spare fs.old ≤ F.spare fs.new }
    ensures cause { HasCauseOf (F.faults fs.old) (F.faults fs.new) (ObjectsFailed result) }
{
    for entry in entries {
        match entry.fault {
            None => {}
            Some(fault) => {
                return Err(stopped(alloc, fs, entry.name, load_fault(fault), limits));
            }
        }
    }
    Ok(())
}

/// What is told of an object that is damaged, or couldn't be read, where what was listed before it is whole.
fn stopped<F: Fs>(
    alloc: Global,
    fs: &mut F,
    name: ObjName,
    fault: LoadFault,
    limits: &Limits,
) -> ObjectsFault
    requires { (v : View) → F.view fs.old ≡ Some v → IsWrong v.now limits.now.content name fault }
    ensures told { (v : View) → F.view fs.old ≡ Some v → TellsStop v.now limits.now.content name fault result }
    ensures refusal { TellsRefusal fault result }
    ensures quiet { IsQuiet (F.clock fs.old) (F.clock fs.new) (F.was fs.old) (F.was fs.new) (F.view fs.old) (F.view fs.new) }
    ensures keeps_room { F.spare fs.old ≤ F.spare fs.new }
    ensures cause { HasCauseOf (F.faults fs.old) (F.faults fs.new) (IsNewFailure fault result) }
{
    match fault {
        LoadFault::Damaged(fault) => first_damage(alloc, fs, name, fault, limits),
        LoadFault::Fs(refusal) => ObjectsFault::Fs(refusal),
        LoadFault::NoMemory => ObjectsFault::NoMemory,
    }
}

/// The first damage by path, where what was listed before this object is whole: names ascend as paths do, but a folder's
/// attributes are listed behind entries of the same sum, and their path comes before.
fn first_damage<F: Fs>(
    alloc: Global,
    fs: &mut F,
    name: ObjName,
    fault: CheckFault,
    limits: &Limits,
) -> ObjectsFault
    ensures told { (v : View) → F.view fs.old ≡ Some v → IsFirstOf v.now limits.now.content name fault result }
    ensures quiet { IsQuiet (F.clock fs.old) (F.clock fs.new) (F.was fs.old) (F.was fs.new) (F.view fs.old) (F.view fs.new) }
    ensures keeps_room { F.spare fs.old ≤ F.spare fs.new }
    ensures cause { HasCauseOf (F.faults fs.old) (F.faults fs.new) (FailedBy result) }
{
    if name.kind != Kind::DirTree {
        return ObjectsFault::Damaged(name, fault);
    }
    let attributes = ObjName {
        csum: name.csum,
        kind: Kind::DirMeta,
    };
    match damage(alloc, fs, &attributes, limits) {
        Ok(None) => ObjectsFault::Damaged(name, fault),
        Ok(Some(earlier)) => ObjectsFault::Damaged(attributes, earlier),
        Err(fault) => fault,
    }
}

/// What is wrong with what stands at the object's path, if anything is.
fn damage<F: Fs>(
    alloc: Global,
    fs: &mut F,
    name: &ObjName,
    limits: &Limits,
) -> Result<Option<CheckFault>, ObjectsFault>
    ensures told { (v : View) → F.view fs.old ≡ Some v → Finds v.now limits.now.content name.now result }
    ensures quiet { IsQuiet (F.clock fs.old) (F.clock fs.new) (F.was fs.old) (F.was fs.new) (F.view fs.old) (F.view fs.new) }
    ensures keeps_room { F.spare fs.old ≤ F.spare fs.new }
    ensures cause { HasCauseOf (F.faults fs.old) (F.faults fs.new) (ObjectsFailed result) }
{
    match load(alloc, fs, name, limits) {
        Ok(Some(object)) => Ok(no_fault(&object)),
        Ok(None) => Ok(None),
        Err(LoadFault::Damaged(fault)) => Ok(Some(fault)),
        Err(LoadFault::Fs(refusal)) => Err(ObjectsFault::Fs(refusal)),
        Err(LoadFault::NoMemory) => Err(ObjectsFault::NoMemory),
    }
}
