ghost use Rattle.std.specs.Prelude.{◌≡◌, ◌≤◌, ◌+◌, ◌==◌, ◌||◌, Bool, length, true, IsTrue, IsErrOf};
ghost use Rattle.fs_trait.specs.Effect.{no_new, no_file, no_leaf, no_move, no_folder, no_link, no_rmdir, inode_of, HasNames};
ghost use Rattle.fs_trait.specs.declared.types.Value.TheVariants.{Absent, Folder, Link};
ghost use Rattle.fs_trait.specs.declared.types.FsErr.TheVariants.{NoMemory};
ghost use Rattle.memory_record.specs.declared.change.Change.TheVariants.{Name as Named, Create, Move, Extend, SyncFile, SyncFolder};
ghost use Rattle.memory_record.specs.Changes.{view_of};
ghost use Rattle.memory_record.specs.Answer.{IsAnswer};

use crate::walk::{file_at, folder_at, free, leaf_at, not_folder};
use fs_trait::{FsErr, Value};
use memory_record::{Change, Past};
use ost_types::{Bytes, FsPath, Meta, Text, TryCopy};
use places::Pool;
use std::alloc::Global;

/// A new folder.
pub fn make_folder(
    places: &mut Pool,
    past: &Past,
    at: &FsPath,
    meta: &Meta,
) -> Result<Change, FsErr>
    ensures answer { IsAnswer true (no_new at.now (view_of past.now.changes.items).now) (λ c. c ≡ Named at.now (Folder meta.now)) result }
    ensures took { places.old ≤ places.new + 1 }
{
    let place = places.place(at)?;
    free(past, at, &place)?;
    Ok(Change::Name(place, Value::Folder(meta.copy()?)))
}

/// A new empty file, whose inode is the number of the changes before.
pub fn make_file(places: &mut Pool, past: &Past, at: &FsPath, meta: &Meta) -> Result<Change, FsErr>
    ensures answer { IsAnswer true (no_new at.now (view_of past.now.changes.items).now) (λ c. c ≡ Create at.now meta.now (length past.now.changes.items)) result }
    ensures took { places.old ≤ places.new + 1 }
{
    let place = places.place(at)?;
    free(past, at, &place)?;
    Ok(Change::Create(place, meta.copy()?, past.changes.len() as u64))
}

/// More bytes in a file.
pub fn extend_file(
    alloc: Global,
    places: &mut Pool,
    past: &Past,
    at: &FsPath,
    bytes: &[u8],
) -> Result<Change, FsErr>
    ensures answer { IsAnswer true (no_file at.now (view_of past.now.changes.items).now) (λ c. c ≡ Extend (inode_of ((view_of past.now.changes.items).now.at at.now)) bytes.now) result }
    ensures took { places.old ≤ places.new + 1 }
{
    let place = places.place(at)?;
    let inode = file_at(past, at, &place)?;
    Ok(Change::Extend(inode, Bytes::from_slice(alloc, bytes)?))
}

/// A new symbolic link.
pub fn make_link(
    places: &mut Pool,
    past: &Past,
    at: &FsPath,
    target: &Text,
    meta: &Meta,
) -> Result<Change, FsErr>
    ensures answer { IsAnswer true (no_new at.now (view_of past.now.changes.items).now) (λ c. c ≡ Named at.now (Link meta.now target.now)) result }
    ensures took { places.old ≤ places.new + 1 }
{
    let place = places.place(at)?;
    free(past, at, &place)?;
    Ok(Change::Name(place, Value::Link(meta.copy()?, target.copy()?)))
}

/// Another name of a leaf.
#[tactic(auto, unfolding(fs_trait::specs::Effect::no_link))]
pub fn link_leaf(
    alloc: Global,
    places: &mut Pool,
    targets: &mut Pool,
    past: &Past,
    from: &FsPath,
    to: &FsPath,
) -> Result<Change, FsErr>
    ensures answer { IsAnswer true (no_link from.now to.now (view_of past.now.changes.items).now) (λ c. c ≡ Named to.now ((view_of past.now.changes.items).now.at from.now)) result }
    ensures took { (places.old ≤ places.new + 1) × (targets.old ≤ targets.new + 1) }
{
    let from_place = places.place(from)?;
    let to_place = targets.place(to)?;
    leaf_at(past, from, &from_place)?;
    free(past, to, &to_place)?;
    let value = past.value_at(from_place.text()).copy(alloc)?;
    Ok(Change::Name(to_place, value))
}

/// A leaf's name gone.
pub fn remove_leaf(places: &mut Pool, past: &Past, at: &FsPath) -> Result<Change, FsErr>
    ensures answer { IsAnswer (places.old == 0) (no_leaf at.now (view_of past.now.changes.items).now) (λ c. c ≡ Named at.now Absent) result }
    ensures took { places.old ≤ places.new + 1 }
{
    let place = places.place(at)?;
    leaf_at(past, at, &place)?;
    Ok(Change::Name(place, Value::Absent))
}

/// An empty folder gone.
#[tactic(auto, unfolding(fs_trait::specs::Effect::no_rmdir))]
pub fn remove_folder(places: &mut Pool, past: &Past, at: &FsPath) -> Result<Change, FsErr>
    ensures answer { (b : Bool) → HasNames b at.now (view_of past.now.changes.items).now → IsAnswer (places.old == 0) (no_rmdir b at.now (view_of past.now.changes.items).now) (λ c. c ≡ Named at.now Absent) result }
    ensures wants { IsErrOf result NoMemory → IsTrue (places.old == 0) }
    ensures took { places.old ≤ places.new + 1 }
{
    let place = places.place(at)?;
    folder_at(past, at, &place)?;
    if past.has_names(&place) {
        return Err(FsErr::NotEmpty);
    }
    Ok(Change::Name(place, Value::Absent))
}

/// A leaf under another name.
#[tactic(auto, unfolding(fs_trait::specs::Effect::no_move))]
pub fn move_leaf(
    places: &mut Pool,
    targets: &mut Pool,
    past: &Past,
    from: &FsPath,
    to: &FsPath,
) -> Result<Change, FsErr>
    ensures answer { IsAnswer ((places.old == 0) || (targets.old == 0)) (no_move from.now to.now (view_of past.now.changes.items).now) (λ c. c ≡ Move from.now to.now) result }
    ensures took { (places.old ≤ places.new + 1) × (targets.old ≤ targets.new + 1) }
{
    let from_place = places.place(from)?;
    let to_place = targets.place(to)?;
    leaf_at(past, from, &from_place)?;
    not_folder(past, to, &to_place)?;
    Ok(Change::Move(from_place, to_place))
}

/// A file's bytes synced.
pub fn sync_file(places: &mut Pool, past: &Past, at: &FsPath) -> Result<Change, FsErr>
    ensures answer { IsAnswer (places.old == 0) (no_file at.now (view_of past.now.changes.items).now) (λ c. c ≡ SyncFile (inode_of ((view_of past.now.changes.items).now.at at.now))) result }
    ensures took { places.old ≤ places.new + 1 }
{
    let place = places.place(at)?;
    let inode = file_at(past, at, &place)?;
    Ok(Change::SyncFile(inode))
}

/// A folder's names synced.
pub fn sync_folder(places: &mut Pool, past: &Past, at: &FsPath) -> Result<Change, FsErr>
    ensures answer { IsAnswer (places.old == 0) (no_folder at.now (view_of past.now.changes.items).now) (λ c. c ≡ SyncFolder at.now) result }
    ensures took { places.old ≤ places.new + 1 }
{
    let place = places.place(at)?;
    folder_at(past, at, &place)?;
    Ok(Change::SyncFolder(place))
}
