//! The entries of a folder.

use ost_types::{Csum, Name};

/// A file of a folder: its name, and the name of its object.
#[derive(Drop, Debug)]
pub struct FileItem {
    pub name: Name,
    pub file: Csum,
}

/// A folder in a folder: its name, and the names of its entries' and its attributes' objects.
#[derive(Drop, Debug)]
pub struct FolderItem {
    pub name: Name,
    pub tree: Csum,
    pub meta: Csum,
}
