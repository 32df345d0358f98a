//! The files and the folders of a folder, each in the order of their names.

ghost use Rattle.std.specs.Prelude.{◌≡◌, ◌++◌, ◌∷◌, [], OnOk, OnErr};

use crate::entry::{FileItem, FolderItem};
use ost_types::NoMemory;
use std::alloc::Global;
use std::marker::Model;

/// The files of a folder, which ascend by the bytes of their names.
#[derive(Drop, Debug)]
pub struct FileItems {
    items: Vec<FileItem>,
}

impl Model for FileItems {
    ghost use Rattle.std.specs.Prelude.{List};
    ghost use Rattle.ost_forms.specs.declared.entry.FileItem.{FileItem as Item};
    ghost use Rattle.ost_forms.specs.DirTree.{AreFiles};

    ghost Value = { List Item };

    ghost view = { λ a. a.items.items };

    ghost invariant = { λ a. AreFiles a.items.items };
}

impl FileItems {
    ghost use Rattle.ost_forms.specs.DirTree.{AreFiles, IsAscending, file_names};

    pub fn new(alloc: Global) -> FileItems
        ensures { result ≡ [] }
    {
        FileItems {
            items: Vec::new(alloc),
        }
    }

    pub(crate) fn from_vec(items: Vec<FileItem>) -> FileItems
        requires { AreFiles items.items }
        ensures { result ≡ items.items }
    {
        FileItems { items }
    }

    /// Adds a file whose name comes after all others.
    pub fn push(&mut self, item: FileItem) -> Result<(), NoMemory>
        requires { IsAscending (file_names (self.old ++ item ∷ [])) }
        ensures ok { OnOk result (self.new ≡ self.old ++ item ∷ []) }
        ensures err { OnErr result (self.new ≡ self.old) }
    {
        let _name = item.name.as_slice();
        let _file = item.file.as_slice();
        self.items.push(item)?;
        Ok(())
    }

    pub fn as_slice(&self) -> &[FileItem]
        ensures value { result.now ≡ self.now }
        ensures kept { AreFiles result.now }
    {
        &self.items
    }
}

/// The folders of a folder, which ascend by the bytes of their names.
#[derive(Drop, Debug)]
pub struct FolderItems {
    items: Vec<FolderItem>,
}

impl Model for FolderItems {
    ghost use Rattle.std.specs.Prelude.{List};
    ghost use Rattle.ost_forms.specs.declared.entry.FolderItem.{FolderItem as Item};
    ghost use Rattle.ost_forms.specs.DirTree.{AreFolders};

    ghost Value = { List Item };

    ghost view = { λ a. a.items.items };

    ghost invariant = { λ a. AreFolders a.items.items };
}

impl FolderItems {
    ghost use Rattle.ost_forms.specs.DirTree.{AreFolders, IsAscending, folder_names};

    pub fn new(alloc: Global) -> FolderItems
        ensures { result ≡ [] }
    {
        FolderItems {
            items: Vec::new(alloc),
        }
    }

    pub(crate) fn from_vec(items: Vec<FolderItem>) -> FolderItems
        requires { AreFolders items.items }
        ensures { result ≡ items.items }
    {
        FolderItems { items }
    }

    /// Adds a folder whose name comes after all others.
    pub fn push(&mut self, item: FolderItem) -> Result<(), NoMemory>
        requires { IsAscending (folder_names (self.old ++ item ∷ [])) }
        ensures ok { OnOk result (self.new ≡ self.old ++ item ∷ []) }
        ensures err { OnErr result (self.new ≡ self.old) }
    {
        let _name = item.name.as_slice();
        let _tree = item.tree.as_slice();
        let _meta = item.meta.as_slice();
        self.items.push(item)?;
        Ok(())
    }

    pub fn as_slice(&self) -> &[FolderItem]
        ensures value { result.now ≡ self.now }
        ensures kept { AreFolders result.now }
    {
        &self.items
    }
}
