use fs_trait::Value;
use ost_types::{Bytes, Meta, NoMemory, TryCopy};
use places::Place;

/// What a changing call did. Files go by the numbers of their inodes.
#[derive(Drop, Debug)]
pub enum Change {
    Nothing,
    Name(Place, Value),
    Create(Place, Meta, u64),
    Move(Place, Place),
    Extend(u64, Bytes),
    SyncFile(u64),
    SyncFolder(Place),
    SyncAll,
    /// A crash that leaves each name as it is, and XORs the bytes that aren't synced with this one.
    Crash(u8),
}

impl TryCopy for Change {
    fn copy(&self) -> Result<Change, NoMemory> {
        Ok(match self {
            Change::Nothing => Change::Nothing,
            Change::Name(place, value) => Change::Name(place.copy()?, value.copy()?),
            Change::Create(place, meta, inode) => Change::Create(
                place.copy()?,
                meta.copy()?,
                *inode,
            ),
            Change::Move(from, to) => Change::Move(from.copy()?, to.copy()?),
            Change::Extend(inode, bytes) => Change::Extend(*inode, bytes.copy()?),
            Change::SyncFile(inode) => Change::SyncFile(*inode),
            Change::SyncFolder(place) => Change::SyncFolder(place.copy()?),
            Change::SyncAll => Change::SyncAll,
            Change::Crash(fill) => Change::Crash(*fill),
        })
    }
}
