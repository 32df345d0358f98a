//! The bytes of a folder's object.

ghost use Rattle.std.specs.Prelude.{◌≡◌, Some, IfOk};
ghost use Rattle.ost_forms.specs.declared.object_type.ObjectType.TheVariants as types;
ghost use Rattle.ost_forms.specs.TypeText.{type_text};
ghost use Rattle.ost_forms.specs.DirTree.{Entries, file_form, folder_form, files_form, folders_form, tree_form};

use crate::dirtree::DirTree;
use crate::entry::{FileItem, FolderItem};
use crate::object_type::ObjectType;
use crate::pieces::{array, container};
use crate::text::bytes_of;
use gv_core::{GvBytes, GvKind};
use ost_types::{Bytes, NoMemory};
use std::alloc::Global;

/// The object of these entries.
pub fn write_dirtree(alloc: Global, value: &DirTree) -> Result<Bytes, NoMemory>
    ensures form { IfOk result (λ b. tree_form (record { files = value.now.files; folders = value.now.folders }) ≡ Some b) }
    // No other entries have these bytes.
    ensures own { IfOk result (λ b. (t : Entries) → tree_form t ≡ Some b → t ≡ record { files = value.now.files; folders = value.now.folders }) }
{
    let kind = ObjectType::DirTree.kind(alloc)?;
    let files = write_files(alloc, value.files.as_slice())?;
    let folders = write_folders(alloc, value.folders.as_slice())?;
    let bytes = container(alloc, &kind, &[files.as_slice(), folders.as_slice()])?;
    Bytes::from_slice(alloc, bytes.as_slice())
}

fn write_files(alloc: Global, items: &[FileItem]) -> Result<GvBytes, NoMemory>
    ensures { IfOk result (λ b. files_form items.now ≡ Some b) }
{
    let list_kind = ObjectType::Files.kind(alloc)?;
    let row_kind = ObjectType::File.kind(alloc)?;
    let mut rows = Vec::with_capacity(alloc, items.len())?;
    for item in items {
        rows.push(write_file(alloc, &row_kind, item)?)?;
    }
    array(alloc, &list_kind, &rows)
}

fn write_file(alloc: Global, kind: &GvKind, item: &FileItem) -> Result<GvBytes, NoMemory>
    requires { kind.now ≡ type_text types.File }
    ensures { IfOk result (λ b. file_form item.now ≡ Some b) }
{
    let name = bytes_of(alloc, item.name.as_slice())?;
    container(alloc, kind, &[&name, item.file.as_slice()])
}

fn write_folders(alloc: Global, items: &[FolderItem]) -> Result<GvBytes, NoMemory>
    ensures { IfOk result (λ b. folders_form items.now ≡ Some b) }
{
    let list_kind = ObjectType::Folders.kind(alloc)?;
    let row_kind = ObjectType::Folder.kind(alloc)?;
    let mut rows = Vec::with_capacity(alloc, items.len())?;
    for item in items {
        rows.push(write_folder(alloc, &row_kind, item)?)?;
    }
    array(alloc, &list_kind, &rows)
}

fn write_folder(alloc: Global, kind: &GvKind, item: &FolderItem) -> Result<GvBytes, NoMemory>
    requires { kind.now ≡ type_text types.Folder }
    ensures { IfOk result (λ b. folder_form item.now ≡ Some b) }
{
    let name = bytes_of(alloc, item.name.as_slice())?;
    container(
        alloc,
        kind,
        &[&name, item.tree.as_slice(), item.meta.as_slice()],
    )
}
