//! What the entries of a folder have under a name.
ghost use Rattle.std.specs.Prelude.{◌≡◌, Contains, MatchOption};
ghost use Rattle.ost_forms.specs.declared.entry.FileItem.{FileItem as FileEntry};
ghost use Rattle.ost_forms.specs.declared.entry.FolderItem.{FolderItem as FolderEntry};
ghost use Rattle.read_command.specs.Entering.{IsEntry, IsFolderEntry};

use ost_forms::{DirTree, FileItem, FolderItem};
use ost_types::{Csum, Name};

#[derive(Clone, Copy, Debug)]
pub(crate) enum Entry {
    Nothing,
    File(Csum),
    Folder { tree: Csum, meta: Csum },
}

pub(crate) fn entry_of(tree: &DirTree, name: &Name) -> Entry
    ensures { IsEntry (record { files = tree.now.files; folders = tree.now.folders }) name.now result }
{
    match file_of(tree.files.as_slice(), name) {
        Some(file) => Entry::File(file),
        None => folder_of(tree.folders.as_slice(), name),
    }
}

fn file_of(files: &[FileItem], name: &Name) -> Option<Csum>
    ensures { MatchOption result ((i : FileEntry) → Contains files.now i → i.name ≡ name.now → ⊥) (λ sum. (i : FileEntry) × Contains files.now i × (i.name ≡ name.now) × (i.file ≡ sum)) }
{
    for item in files {
        if item.name == *name {
            return Some(item.file);
        }
    }
    None
}

fn folder_of(folders: &[FolderItem], name: &Name) -> Entry
    ensures { IsFolderEntry folders.now name.now result }
{
    for item in folders {
        if item.name == *name {
            return Entry::Folder {
                tree: item.tree,
                meta: item.meta,
            };
        }
    }
    Entry::Nothing
}
