//! The rows of a folder's object.

ghost use Rattle.std.specs.Prelude.{◌≡◌, map};
ghost use Rattle.ost_forms.specs.declared.object_type.ObjectType.TheVariants as types;
ghost use Rattle.ost_forms.specs.TypeText.{type_text};
ghost use Rattle.ost_forms.specs.Finds.{Finds};
ghost use Rattle.ost_forms.specs.DirTree.{file_form, folder_form, files_form, folders_form};
ghost use Rattle.ost_forms.specs.FileRow.{file_of, folder_of};

use crate::fault::ObjFault;
use crate::object_type::ObjectType;
use crate::pieces::members;
use crate::row::{FileRow, FolderRow};
use crate::text::text_of;
use gv_core::GvKind;
use std::alloc::Global;

pub(crate) fn read_files<'a>(alloc: Global, bytes: &'a [u8]) -> Result<Vec<FileRow<'a>>, ObjFault>
    ensures { Finds (λ v. map file_of v.items) files_form bytes.now result }
{
    let list_kind = ObjectType::Files.kind(alloc)?;
    let row_kind = ObjectType::File.kind(alloc)?;
    let parts = members(alloc, &list_kind, bytes)?;
    let mut rows = Vec::with_capacity(alloc, parts.len())?;
    for part in &parts {
        rows.push(read_file(alloc, &row_kind, part)?)?;
    }
    Ok(rows)
}

fn read_file<'a>(alloc: Global, kind: &GvKind, bytes: &'a [u8]) -> Result<FileRow<'a>, ObjFault>
    requires { kind.now ≡ type_text types.File }
    ensures { Finds file_of file_form bytes.now result }
{
    let parts = members(alloc, kind, bytes)?;
    let count = parts.len();
    prove!(count == 2);
    let Some(name) = text_of(parts[0]) else {
        return Err(ObjFault::NotNormal);
    };
    Ok(FileRow {
        name,
        file: parts[1],
    })
}

pub(crate) fn read_folders<'a>(
    alloc: Global,
    bytes: &'a [u8],
) -> Result<Vec<FolderRow<'a>>, ObjFault>
    ensures { Finds (λ v. map folder_of v.items) folders_form bytes.now result }
{
    let list_kind = ObjectType::Folders.kind(alloc)?;
    let row_kind = ObjectType::Folder.kind(alloc)?;
    let parts = members(alloc, &list_kind, bytes)?;
    let mut rows = Vec::with_capacity(alloc, parts.len())?;
    for part in &parts {
        rows.push(read_folder(alloc, &row_kind, part)?)?;
    }
    Ok(rows)
}

fn read_folder<'a>(alloc: Global, kind: &GvKind, bytes: &'a [u8]) -> Result<FolderRow<'a>, ObjFault>
    requires { kind.now ≡ type_text types.Folder }
    ensures { Finds folder_of folder_form bytes.now result }
{
    let parts = members(alloc, kind, bytes)?;
    let count = parts.len();
    prove!(count == 3);
    let Some(name) = text_of(parts[0]) else {
        return Err(ObjFault::NotNormal);
    };
    Ok(FolderRow {
        name,
        tree: parts[1],
        meta: parts[2],
    })
}
