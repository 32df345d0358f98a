//! The entries of a folder, of what lies in none yet.

ghost use Rattle.std.specs.Prelude.{◌≡◌, ◌≤◌, ◌<◌, true, false, IfOk, All, map, length, take, drop};
ghost use Rattle.ost_types.specs.Path.{is_in};
ghost use Rattle.ost_forms.specs.DirTree.{IsAscending};
ghost use Rattle.tree_build.specs.Objects.{children, files_of, folders_of, file_at, folder_at};
ghost use Rattle.tree_build.specs.Building.{all_seen, path_at, IsCut};

use crate::paths::name_in;
use crate::progress::Done;
use crate::sums::Sums;
use ost_forms::{DirTree, FileItem, FileItems, FolderItem, FolderItems, TreeItem};
use ost_types::{FsPath, NoMemory, TryCopy};
use std::alloc::Global;

/// From where on all lie directly in the folder.
pub(crate) fn first_in(items: &[TreeItem], made: &[Done], folder: &FsPath) -> usize
    requires places { All (λ d. d.at < length items.now) made.now }
    ensures { IsCut items.now folder.now made.now result }
{
    let mut start = made.len();
    while start > 0 {
        if name_in(folder, &items[made[start - 1].at].path).is_none() {
            return start;
        }
        start -= 1;
    }
    start
}

/// The entries of the folder among these.
pub(crate) fn entries_of(
    alloc: Global,
    items: &[TreeItem],
    made: &[Done],
    folder: &FsPath,
) -> Result<DirTree, NoMemory>
    requires places { All (λ d. d.at < length items.now) made.now }
    requires ascending { IsAscending (map (λ c. c.name) (children folder.now (all_seen items.now made.now))) }
    ensures files { IfOk result (λ t. t.files ≡ files_of (children folder.now (all_seen items.now made.now))) }
    ensures folders { IfOk result (λ t. t.folders ≡ folders_of (children folder.now (all_seen items.now made.now))) }
{
    let files = files_of(alloc, items, made, folder)?;
    let folders = folders_of(alloc, items, made, folder)?;
    Ok(DirTree { files, folders })
}

fn files_of(
    alloc: Global,
    items: &[TreeItem],
    made: &[Done],
    folder: &FsPath,
) -> Result<FileItems, NoMemory>
    requires places { All (λ d. d.at < length items.now) made.now }
    requires ascending { IsAscending (map (λ c. c.name) (children folder.now (all_seen items.now made.now))) }
    ensures { IfOk result (λ f. f ≡ files_of (children folder.now (all_seen items.now made.now))) }
{
    let mut files = FileItems::new(alloc);
    let mut at = made.len();
    while at > 0 {
        at -= 1;
        if let Some(item) = file_of(&items[made[at].at].path, made[at].sums, folder)? {
            files.push(item)?;
        }
    }
    Ok(files)
}

fn folders_of(
    alloc: Global,
    items: &[TreeItem],
    made: &[Done],
    folder: &FsPath,
) -> Result<FolderItems, NoMemory>
    requires places { All (λ d. d.at < length items.now) made.now }
    requires ascending { IsAscending (map (λ c. c.name) (children folder.now (all_seen items.now made.now))) }
    ensures { IfOk result (λ f. f ≡ folders_of (children folder.now (all_seen items.now made.now))) }
{
    let mut folders = FolderItems::new(alloc);
    let mut at = made.len();
    while at > 0 {
        at -= 1;
        if let Some(item) = folder_of(&items[made[at].at].path, made[at].sums, folder)? {
            folders.push(item)?;
        }
    }
    Ok(folders)
}

fn file_of(path: &FsPath, sums: Sums, folder: &FsPath) -> Result<Option<FileItem>, NoMemory>
    ensures { IfOk result (λ r. r ≡ file_at folder.now path.now sums) }
{
    let Some(name) = name_in(folder, path) else {
        return Ok(None);
    };
    match sums {
        Sums::File(file) => Ok(Some(FileItem {
            name: name.copy()?,
            file,
        })),
        Sums::Folder { .. } => Ok(None),
    }
}

fn folder_of(path: &FsPath, sums: Sums, folder: &FsPath) -> Result<Option<FolderItem>, NoMemory>
    ensures { IfOk result (λ r. r ≡ folder_at folder.now path.now sums) }
{
    let Some(name) = name_in(folder, path) else {
        return Ok(None);
    };
    match sums {
        Sums::File(_) => Ok(None),
        Sums::Folder { tree, meta } => Ok(Some(FolderItem {
            name: name.copy()?,
            tree,
            meta,
        })),
    }
}
