//! What is to be read at a path.
use ost_types::{Csum, FsPath};

/// The objects that are named at a path and weren't read yet.
#[derive(Clone, Copy, Debug)]
pub enum Named {
    /// A folder's entries and attributes.
    Folder { tree: Csum, meta: Csum },
    /// A folder's attributes, when its entries were read.
    Attributes(Csum),
    File(Csum),
}

#[derive(Drop, Debug)]
pub struct Item {
    pub path: FsPath,
    pub named: Named,
    /// The entries that name the path; the root's are named by no others than their own.
    pub owner: Csum,
}
