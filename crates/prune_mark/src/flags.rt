//! Names are marked by a flag beside each.
ghost use Rattle.std.specs.Prelude.{◌≡◌, ◌≢◌, ◌≤◌, ◌<◌, ◌+◌, ◌↔◌, List, ℕ, length, vec_len, vec_capacity, IsTrue, MatchOption};
ghost use Rattle.ost_types.specs.declared.object.Kind.TheVariants as kinds;
ghost use Rattle.ost_forms.specs.DirTree.{Entries};
ghost use Rattle.repo_model.specs.Trees.{name_of};
ghost use Rattle.reach.specs.Reach.{Is, IsEntry, IsFolderOf};
ghost use Rattle.prune_mark.specs.Flags.{AreAscending, AreOfFiles, AreOfFolders, IsDown, IsMarked, IsUpIfThere, MarksCommit, MarksParent, Spreads};

use crate::links::Near;
use ost_forms::{DirTree, FileItem, FolderItem};
use ost_types::{Csum, Kind, ObjName};

/// The place of the name, if it is one of these, which ascend, and its flag is down.
fn down_at(names: &[ObjName], flags: &[bool], name: &ObjName) -> Option<usize>
    requires { length flags.now ≡ length names.now }
    ensures { MatchOption result (IsUpIfThere names.now flags.now name.now) (IsDown names.now flags.now name.now) }
{
    match names.binary_search(name) {
        Ok(at) => { if flags[at] { None } else { Some(at) } }
        Err(_) => None,
    }
}

/// Whether the name is one of these, which ascend, and its flag is up.
pub fn is_marked(names: &[ObjName], flags: &[bool], name: &ObjName) -> bool
    requires { length flags.now ≡ length names.now }
    ensures { AreAscending names.now → (IsTrue result ↔ IsMarked names.now flags.now name.now) }
{
    match names.binary_search(name) {
        Ok(at) => flags[at],
        Err(_) => false,
    }
}

/// Marks an object that isn't looked into.
pub fn mark_leaf(names: &[ObjName], flags: &mut Vec<bool>, name: &ObjName)
    requires long { length flags.old.items ≡ length names.now }
    requires kind { name.now.kind ≢ kinds.DirTree }
    ensures { (pending : List (List ℕ)) → Spreads names.now (Is name.now) flags.old.items pending flags.new.items pending }
{
    if let Some(at) = down_at(names, flags.as_slice(), name) {
        flags[at] = true;
    }
}

/// Marks the entries of a folder, which wait from then on, unless they were marked already.
pub fn mark_tree(names: &[ObjName], flags: &mut Vec<bool>, pending: &mut Vec<Csum>, tree: Csum)
    requires long { length flags.old.items ≡ length names.now }
    requires room { vec_len pending.old < vec_capacity pending.old }
    ensures spreads { Spreads names.now (Is (name_of kinds.DirTree tree)) flags.old.items pending.old.items flags.new.items pending.new.items }
    ensures room { vec_capacity pending.new ≡ vec_capacity pending.old }
    ensures few { vec_len pending.new ≤ vec_len pending.old + 1 }
{
    let name = ObjName {
        csum: tree,
        kind: Kind::DirTree,
    };
    if let Some(at) = down_at(names, flags.as_slice(), &name) {
        flags[at] = true;
        pending.push_reserved(tree);
    }
}

/// Marks both objects of a folder.
pub fn mark_folder(
    names: &[ObjName],
    flags: &mut Vec<bool>,
    pending: &mut Vec<Csum>,
    tree: Csum,
    meta: Csum,
)
    requires long { length flags.old.items ≡ length names.now }
    requires room { vec_len pending.old < vec_capacity pending.old }
    ensures spreads { Spreads names.now (IsFolderOf tree meta) flags.old.items pending.old.items flags.new.items pending.new.items }
    ensures room { vec_capacity pending.new ≡ vec_capacity pending.old }
    ensures few { vec_len pending.new ≤ vec_len pending.old + 1 }
{
    let attributes = ObjName {
        csum: meta,
        kind: Kind::DirMeta,
    };
    mark_leaf(names, flags, &attributes);
    mark_tree(names, flags, pending, tree);
}

/// Marks the objects of these files.
fn mark_files(names: &[ObjName], flags: &mut Vec<bool>, files: &[FileItem])
    requires { length flags.old.items ≡ length names.now }
    ensures { (pending : List (List ℕ)) → Spreads names.now (AreOfFiles files.now) flags.old.items pending flags.new.items pending }
{
    for item in files {
        let name = ObjName {
            csum: item.file,
            kind: Kind::File,
        };
        mark_leaf(names, flags, &name);
    }
}

/// Marks the objects of these folders.
fn mark_folders(
    names: &[ObjName],
    flags: &mut Vec<bool>,
    pending: &mut Vec<Csum>,
    folders: &[FolderItem],
)
    requires long { length flags.old.items ≡ length names.now }
    requires room { vec_len pending.old + length folders.now ≤ vec_capacity pending.old }
    ensures { Spreads names.now (AreOfFolders folders.now) flags.old.items pending.old.items flags.new.items pending.new.items }
{
    for item in folders {
        mark_folder(names, flags, pending, item.tree, item.meta);
    }
}

/// Marks all that the entries of a folder name.
pub fn mark_entries(
    names: &[ObjName],
    flags: &mut Vec<bool>,
    pending: &mut Vec<Csum>,
    entries: &DirTree,
)
    requires long { length flags.old.items ≡ length names.now }
    requires room { vec_len pending.old + length entries.now.folders ≤ vec_capacity pending.old }
    ensures { Spreads names.now (IsEntry (record { files = entries.now.files; folders = entries.now.folders })) flags.old.items pending.old.items flags.new.items pending.new.items }
{
    mark_files(names, flags, entries.files.as_slice());
    mark_folders(names, flags, pending, entries.folders.as_slice());
}

/// Marks a commit, which is found as this from then on, unless it was marked already.
pub fn mark_commit(names: &[ObjName], flags: &mut Vec<bool>, found: &mut Vec<Near>, near: Near)
    requires long { length flags.old.items ≡ length names.now }
    requires room { vec_len found.old < vec_capacity found.old }
    ensures marks { MarksCommit names.now near flags.old.items found.old.items flags.new.items found.new.items }
    ensures room { vec_capacity found.new ≡ vec_capacity found.old }
    ensures few { vec_len found.new ≤ vec_len found.old + 1 }
{
    let name = ObjName {
        csum: near.commit,
        kind: Kind::Commit,
    };
    if let Some(at) = down_at(names, flags.as_slice(), &name) {
        flags[at] = true;
        found.push_reserved(near);
    }
}

/// Marks the parent of a commit at this distance, if it is nearer than the depth.
pub fn mark_parent(
    names: &[ObjName],
    flags: &mut Vec<bool>,
    found: &mut Vec<Near>,
    parent: Option<Csum>,
    distance: u32,
    depth: u32,
)
    requires long { length flags.old.items ≡ length names.now }
    requires room { vec_len found.old < vec_capacity found.old }
    ensures { MarksParent names.now parent distance depth flags.old.items found.old.items flags.new.items found.new.items }
{
    let Some(commit) = parent else {
        return;
    };
    if distance < depth {
        let distance = distance + 1;
        mark_commit(names, flags, found, Near { distance, commit });
    }
}
