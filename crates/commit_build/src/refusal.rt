//! Why a tree isn't committed.

use ost_types::FsPath;

#[derive(Drop, Debug)]
pub enum BuildRefusal {
    /// The least path of the items that lies in no folder of theirs; or the root, where the items have no folder there.
    BadTree(FsPath),
    /// The object that was to be put next would be of this number in the store, one more than the bound.
    TooMany(u64),
}
