//! The entries of a folder from the last name to the first.
ghost use Rattle.std.specs.Prelude.{◌≡◌, ◌++◌, ◌∷◌, [], List, IfOk, OnOk, IsTrue, MatchOption, map, ◌↔◌};
ghost use Rattle.ost_types.specs.Path.{IsPath, under};
ghost use Rattle.ost_forms.specs.DirTree.{AreApart, IsAscending, file_names, folder_names};
ghost use Rattle.ost_forms.specs.declared.entry.FolderItem.{FolderItem as FolderEntry};
ghost use Rattle.tree_read.specs.declared.item.Named.TheVariants as named;
ghost use Rattle.tree_read.specs.Children.{AreChildren, Child, item_of};
ghost use Rattle.tree_read.specs.Merging.{IsLast};
ghost use Rattle.tree_read.specs.Order.{IsShort};

use crate::item::{Item, Named};
use ost_forms::{DirTree, FileItem, FolderItem};
use ost_types::{Csum, FsPath, Name, NoMemory};
use std::alloc::Global;

/// The entry whose name comes last, and the files and folders without it.
#[derive(Clone, Copy)]
struct Last<'a> {
    name: &'a Name,
    named: Named,
    files: &'a [FileItem],
    folders: &'a [FolderItem],
}

/// What is to be read below the folder at the path, whose entries these are: the last name first.
pub fn children_of(
    alloc: Global,
    at: &FsPath,
    owner: &Csum,
    tree: &DirTree,
) -> Result<Vec<Item>, NoMemory>
    requires { IsShort at.now }
    ensures { IfOk result (λ items. (cs : List Child) × AreChildren (record { files = tree.now.files; folders = tree.now.folders }) cs × (items.items ≡ map (item_of at.now owner.now) cs)) }
{
    let _names = at.names();
    let mut items = Vec::new(alloc);
    let mut files = tree.files.as_slice();
    let mut folders = tree.folders.as_slice();
    while let Some(last) = last_of(files, folders) {
        let _name = last.name.as_slice();
        items.push(Item {
            path: at.child(last.name)?,
            named: last.named,
            owner: *owner,
        })?;
        files = last.files;
        folders = last.folders;
    }
    Ok(items)
}

fn last_of<'a>(files: &'a [FileItem], folders: &'a [FolderItem]) -> Option<Last<'a>>
    requires files { IsAscending (file_names files.now) }
    requires folders { IsAscending (folder_names folders.now) }
    requires apart { AreApart (file_names files.now) (folder_names folders.now) }
    ensures { MatchOption result ((files.now ≡ []) × (folders.now ≡ [])) (λ l. IsLast files.now folders.now (record { name = l.name.now; named = l.named }) l.files.now l.folders.now) }
{
    let Some((file, fewer)) = files.split_last() else {
        return last_folder(files, folders);
    };
    let Some((folder, _)) = folders.split_last() else {
        return Some(of_file(file, fewer, folders));
    };
    if folder.name.cmp(&file.name).is_lt() {
        Some(of_file(file, fewer, folders))
    } else {
        last_folder(files, folders)
    }
}

fn last_folder<'a>(files: &'a [FileItem], folders: &'a [FolderItem]) -> Option<Last<'a>>
    ensures { MatchOption result (folders.now ≡ []) (λ l. (i : FolderEntry) × (folders.now ≡ l.folders.now ++ i ∷ []) × (l.files.now ≡ files.now) × (l.name.now ≡ i.name) × (l.named ≡ named.Folder i.tree i.meta)) }
{
    let (folder, folders) = folders.split_last()?;
    Some(Last {
        name: &folder.name,
        named: Named::Folder {
            tree: folder.tree,
            meta: folder.meta,
        },
        files,
        folders,
    })
}

fn of_file<'a>(file: &'a FileItem, files: &'a [FileItem], folders: &'a [FolderItem]) -> Last<'a>
    ensures name { result.name.now ≡ file.now.name }
    ensures named { result.named ≡ named.File file.now.file }
    ensures files { result.files.now ≡ files.now }
    ensures folders { result.folders.now ≡ folders.now }
{
    Last {
        name: &file.name,
        named: Named::File(file.file),
        files,
        folders,
    }
}

/// Whether the path has at most 64 names and 1,024 bytes.
pub fn is_short(path: &FsPath) -> bool
    ensures { IsTrue result ↔ IsShort path.now }
{
    let names = path.names();
    if names.len() > 64 {
        return false;
    }
    let mut bytes = 0;
    for name in names {
        bytes += 1 + name.as_slice().len();
    }
    bytes <= 1024
}
