//! Whether the rows of a folder are the entries of one.

ghost use Rattle.std.specs.Prelude.{◌≡◌, ◌↔◌, IsTrue, IfOk, length, map, All};
ghost use Rattle.ost_types.specs.Text.{IsName};
ghost use Rattle.ost_forms.specs.DirTree.{file_names as names_of_files, folder_names as names_of_folders, HasSums, HasNames, IsSorted};
ghost use Rattle.ost_forms.specs.FileRow.{file_of, folder_of, entries_of};

use crate::names::{are_apart, is_ascending};
use crate::row::{FileRow, FolderRow, TreeRows};
use ost_types::{NoMemory, is_name};
use std::alloc::Global;

pub(crate) fn have_sums(rows: &TreeRows) -> bool
    ensures { IsTrue result ↔ HasSums (entries_of rows.now) }
{
    files_have_sums(&rows.files) && folders_have_sums(&rows.folders)
}

fn files_have_sums(rows: &[FileRow]) -> bool
    ensures { IsTrue result ↔ All (λ r. length r.file.now ≡ 32) rows.now }
{
    rows.iter().all(|row| row.file.len() == 32)
}

fn folders_have_sums(rows: &[FolderRow]) -> bool
    ensures { IsTrue result ↔ All (λ r. (length r.tree.now ≡ 32) × (length r.meta.now ≡ 32)) rows.now }
{
    rows.iter()
        .all(|row| row.tree.len() == 32 && row.meta.len() == 32)
}

pub(crate) fn have_names(rows: &TreeRows) -> bool
    ensures { IsTrue result ↔ HasNames (entries_of rows.now) }
{
    files_have_names(&rows.files) && folders_have_names(&rows.folders)
}

fn files_have_names(rows: &[FileRow]) -> bool
    ensures { IsTrue result ↔ All (λ r. IsName r.name.now) rows.now }
{
    rows.iter().all(|row| is_name(row.name))
}

fn folders_have_names(rows: &[FolderRow]) -> bool
    ensures { IsTrue result ↔ All (λ r. IsName r.name.now) rows.now }
{
    rows.iter().all(|row| is_name(row.name))
}

pub(crate) fn are_sorted(alloc: Global, rows: &TreeRows) -> Result<bool, NoMemory>
    ensures { IfOk result (λ b. IsTrue b ↔ IsSorted (entries_of rows.now)) }
{
    let files = file_names(alloc, &rows.files)?;
    let folders = folder_names(alloc, &rows.folders)?;
    if !is_ascending(&files) {
        return Ok(false);
    }
    if !is_ascending(&folders) {
        return Ok(false);
    }
    Ok(are_apart(&files, &folders))
}

fn file_names<'a>(alloc: Global, rows: &[FileRow<'a>]) -> Result<Vec<&'a [u8]>, NoMemory>
    ensures { IfOk result (λ v. map (λ b. b.now) v.items ≡ names_of_files (map file_of rows.now)) }
{
    let mut names = Vec::with_capacity(alloc, rows.len())?;
    for row in rows {
        names.push(row.name)?;
    }
    Ok(names)
}

fn folder_names<'a>(alloc: Global, rows: &[FolderRow<'a>]) -> Result<Vec<&'a [u8]>, NoMemory>
    ensures { IfOk result (λ v. map (λ b. b.now) v.items ≡ names_of_folders (map folder_of rows.now)) }
{
    let mut names = Vec::with_capacity(alloc, rows.len())?;
    for row in rows {
        names.push(row.name)?;
    }
    Ok(names)
}
