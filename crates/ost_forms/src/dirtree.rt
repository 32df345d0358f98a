//! A folder as an object.

ghost use Rattle.std.specs.Prelude.{◌≡◌, Some, IfOk, IsTrue, map, All, length};
ghost use Rattle.ost_types.specs.Text.{IsName};
ghost use Rattle.ost_forms.specs.DirTree.{AreApart, IsAscending, HasSums, HasNames, IsSorted, file_names, folder_names, tree_form, ReadsDirTree};
ghost use Rattle.ost_forms.specs.FileRow.{file_of, folder_of, entries_of};
ghost use Rattle.ost_forms.specs.Finds.{Finds};

use crate::dirmeta::OBJECT_LIMIT;
use crate::entry::{FileItem, FolderItem};
use crate::fault::ObjFault;
use crate::items::{FileItems, FolderItems};
use crate::object_type::ObjectType;
use crate::pieces::members;
use crate::row::{FileRow, FolderRow, TreeRows};
use crate::rows::{read_files, read_folders};
use crate::sorting::{are_sorted, have_names, have_sums};
use crate::sum::sum_at;
use ost_types::{Name, NoMemory};
use std::alloc::Global;

/// The entries of a folder. No name is both a file's and a folder's.
#[derive(Drop, Debug)]
pub struct DirTree {
    pub files: FileItems,
    pub folders: FolderItems,
    ghost apart: { ∥ AreApart (file_names files) (folder_names folders) ∥₁ },
}

/// The folder whose object these bytes are.
pub fn read_dirtree(alloc: Global, bytes: &[u8]) -> Result<DirTree, ObjFault>
    ensures { ReadsDirTree (λ t. record { files = t.files; folders = t.folders }) bytes.now result }
{
    if bytes.len() > OBJECT_LIMIT {
        return Err(ObjFault::TooLarge(bytes.len() as u64));
    }
    let rows = read_rows(alloc, bytes)?;
    if !have_sums(&rows) {
        return Err(ObjFault::BadSumLength);
    }
    if !have_names(&rows) {
        return Err(ObjFault::BadName);
    }
    if !are_sorted(alloc, &rows)? {
        return Err(ObjFault::NotSorted);
    }
    Ok(made_of(alloc, &rows)?)
}

fn read_rows<'a>(alloc: Global, bytes: &'a [u8]) -> Result<TreeRows<'a>, ObjFault>
    ensures { Finds entries_of tree_form bytes.now result }
{
    let kind = ObjectType::DirTree.kind(alloc)?;
    let parts = members(alloc, &kind, bytes)?;
    let count = parts.len();
    prove!(count == 2);
    let files = read_files(alloc, parts[0])?;
    let folders = read_folders(alloc, parts[1])?;
    Ok(TreeRows { files, folders })
}

fn made_of(alloc: Global, rows: &TreeRows) -> Result<DirTree, NoMemory>
    requires sums { HasSums (entries_of rows.now) }
    requires names { HasNames (entries_of rows.now) }
    requires sorted { IsSorted (entries_of rows.now) }
    ensures files { IfOk result (λ t. t.files ≡ (entries_of rows.now).files) }
    ensures folders { IfOk result (λ t. t.folders ≡ (entries_of rows.now).folders) }
{
    Ok(DirTree {
        files: file_items(alloc, &rows.files)?,
        folders: folder_items(alloc, &rows.folders)?,
    })
}

fn file_items(alloc: Global, rows: &[FileRow]) -> Result<FileItems, NoMemory>
    requires sums { All (λ r. length r.file.now ≡ 32) rows.now }
    requires names { All (λ r. IsName r.name.now) rows.now }
    requires ascending { IsAscending (file_names (map file_of rows.now)) }
    ensures { IfOk result (λ v. v ≡ map file_of rows.now) }
{
    let mut items = Vec::with_capacity(alloc, rows.len())?;
    for row in rows {
        items.push(file_item(alloc, row)?)?;
    }
    Ok(FileItems::from_vec(items))
}

fn folder_items(alloc: Global, rows: &[FolderRow]) -> Result<FolderItems, NoMemory>
    requires sums { All (λ r. (length r.tree.now ≡ 32) × (length r.meta.now ≡ 32)) rows.now }
    requires names { All (λ r. IsName r.name.now) rows.now }
    requires ascending { IsAscending (folder_names (map folder_of rows.now)) }
    ensures { IfOk result (λ v. v ≡ map folder_of rows.now) }
{
    let mut items = Vec::with_capacity(alloc, rows.len())?;
    for row in rows {
        items.push(folder_item(alloc, row)?)?;
    }
    Ok(FolderItems::from_vec(items))
}

fn file_item(alloc: Global, row: &FileRow) -> Result<FileItem, NoMemory>
    requires name { IsName row.now.name.now }
    requires file { length row.now.file.now ≡ 32 }
    ensures { IfOk result (λ i. i ≡ file_of row.now) }
{
    Ok(FileItem {
        name: name_of(alloc, row.name)?,
        file: sum_at(row.file),
    })
}

fn folder_item(alloc: Global, row: &FolderRow) -> Result<FolderItem, NoMemory>
    requires name { IsName row.now.name.now }
    requires tree { length row.now.tree.now ≡ 32 }
    requires meta { length row.now.meta.now ≡ 32 }
    ensures { IfOk result (λ i. i ≡ folder_of row.now) }
{
    Ok(FolderItem {
        name: name_of(alloc, row.name)?,
        tree: sum_at(row.tree),
        meta: sum_at(row.meta),
    })
}

fn name_of(alloc: Global, bytes: &[u8]) -> Result<Name, NoMemory>
    requires { IsName bytes.now }
    ensures { IfOk result (λ n. n ≡ bytes.now) }
{
    match Name::parse(alloc, bytes)? {
        Some(name) => Ok(name),
        None => unreachable!(),
    }
}
