//! One object of a commit is read. It is there where it is what its name says: its bytes have that sum and the form of the kind, where content of
//! a file has at most `limits.content` bytes. It is absent where nothing stands at its path, and damaged where anything else does. An error is a
//! call that failed, or wanted for memory.
ghost use Rattle.std.specs.Prelude.{◌≡◌, ◌≤◌, ℕ, List, Some, Ok};
ghost use Rattle.ost_types.specs.declared.object.Kind.TheVariants as kinds;
ghost use Rattle.ost_forms.specs.Commit.{ReadsCommit};
ghost use Rattle.ost_forms.specs.CommitRow.{parts_of};
ghost use Rattle.ost_forms.specs.DirTree.{ReadsDirTree};
ghost use Rattle.ost_forms.specs.DirMeta.{ReadsDirMeta};
ghost use Rattle.fs_trait.specs.View.{View};
ghost use Rattle.fs_trait.specs.Effect.{HasCause, IsQuiet};
ghost use Rattle.ost_objects.specs.Object.{HasForm};
ghost use Rattle.repo_model.specs.Objects.{Has, Stores};
ghost use Rattle.repo_model.specs.Trees.{HasCommit, HasEntries, HasMeta, name_of};
ghost use Rattle.tree_read.specs.declared.looked.Looked.TheVariants.{Here};
ghost use Rattle.tree_read.specs.Looks.{Looks, OfFolder, Reads};

use crate::looked::Looked;
use fs_trait::{Fs, FsErr};
use obj_store::{LoadFault, load};
use ost_forms::{Commit, DirTree, ObjFault, read_commit, read_dirmeta, read_dirtree};
use ost_objects::Checked;
use ost_types::{Csum, Kind, Limits, Meta, ObjName};
use std::alloc::Global;

/// The object of this name, with its bytes.
pub fn look_at_object<F: Fs>(
    alloc: Global,
    fs: &mut F,
    name: &ObjName,
    limits: &Limits,
) -> Result<Looked<Checked>, FsErr>
    ensures told { (v : View) → F.view fs.old ≡ Some v → Looks v.now limits.now.content name.now (λ o. (o.name ≡ name.now) × (o.limit ≡ limits.now.content) × Stores v.now name.now o.bytes) result }
    ensures quiet { IsQuiet (F.clock fs.old) (F.clock fs.new) (F.was fs.old) (F.was fs.new) (F.view fs.old) (F.view fs.new) }
    ensures keeps_room { F.spare fs.old ≤ F.spare fs.new }
    ensures cause { HasCause (F.faults fs.old) (F.faults fs.new) result }
{
    match load(alloc, fs, name, limits) {
        Ok(Some(object)) => Ok(Looked::Here(object)),
        Ok(None) => Ok(Looked::Absent),
        Err(LoadFault::Damaged(_)) => Ok(Looked::Damaged),
        Err(LoadFault::Fs(refusal)) => Err(refusal),
        Err(LoadFault::NoMemory) => Err(FsErr::NoMemory),
    }
}

/// The whole commit.
pub fn look_at_commit<F: Fs>(
    alloc: Global,
    fs: &mut F,
    commit: &Csum,
    limits: &Limits,
) -> Result<Looked<Commit>, FsErr>
    ensures told { (v : View) → F.view fs.old ≡ Some v → Looks v.now limits.now.content (name_of kinds.Commit commit.now) (λ c. HasCommit (Stores v.now) commit.now (parts_of c)) result }
    ensures quiet { IsQuiet (F.clock fs.old) (F.clock fs.new) (F.was fs.old) (F.was fs.new) (F.view fs.old) (F.view fs.new) }
    ensures keeps_room { F.spare fs.old ≤ F.spare fs.new }
    ensures cause { HasCause (F.faults fs.old) (F.faults fs.new) result }
{
    let name = ObjName {
        csum: *commit,
        kind: Kind::Commit,
    };
    match look_at_object(alloc, fs, &name, limits)? {
        Looked::Here(object) => commit_of(alloc, &object),
        Looked::Absent => Ok(Looked::Absent),
        Looked::Damaged => Ok(Looked::Damaged),
    }
}

/// The entries of a folder.
pub fn look_at_entries<F: Fs>(
    alloc: Global,
    fs: &mut F,
    tree: &Csum,
    limits: &Limits,
) -> Result<Looked<DirTree>, FsErr>
    ensures told { (v : View) → F.view fs.old ≡ Some v → Looks v.now limits.now.content (name_of kinds.DirTree tree.now) (λ t. HasEntries (Stores v.now) tree.now (record { files = t.files; folders = t.folders })) result }
    ensures quiet { IsQuiet (F.clock fs.old) (F.clock fs.new) (F.was fs.old) (F.was fs.new) (F.view fs.old) (F.view fs.new) }
    ensures keeps_room { F.spare fs.old ≤ F.spare fs.new }
    ensures cause { HasCause (F.faults fs.old) (F.faults fs.new) result }
{
    let name = ObjName {
        csum: *tree,
        kind: Kind::DirTree,
    };
    match look_at_object(alloc, fs, &name, limits)? {
        Looked::Here(object) => entries_of(alloc, &object),
        Looked::Absent => Ok(Looked::Absent),
        Looked::Damaged => Ok(Looked::Damaged),
    }
}

/// The attributes of a folder.
pub fn look_at_attributes<F: Fs>(
    alloc: Global,
    fs: &mut F,
    meta: &Csum,
    limits: &Limits,
) -> Result<Looked<Meta>, FsErr>
    ensures told { (v : View) → F.view fs.old ≡ Some v → Looks v.now limits.now.content (name_of kinds.DirMeta meta.now) (HasMeta (Stores v.now) meta.now) result }
    ensures folder { OfFolder result }
    ensures quiet { IsQuiet (F.clock fs.old) (F.clock fs.new) (F.was fs.old) (F.was fs.new) (F.view fs.old) (F.view fs.new) }
    ensures keeps_room { F.spare fs.old ≤ F.spare fs.new }
    ensures cause { HasCause (F.faults fs.old) (F.faults fs.new) result }
{
    let name = ObjName {
        csum: *meta,
        kind: Kind::DirMeta,
    };
    match look_at_object(alloc, fs, &name, limits)? {
        Looked::Here(object) => attributes_of(alloc, &object),
        Looked::Absent => Ok(Looked::Absent),
        Looked::Damaged => Ok(Looked::Damaged),
    }
}

/// A file's object, of which nothing is kept.
pub fn look_at_file<F: Fs>(
    alloc: Global,
    fs: &mut F,
    file: &Csum,
    limits: &Limits,
) -> Result<Looked<()>, FsErr>
    ensures told { (v : View) → F.view fs.old ≡ Some v → Looks v.now limits.now.content (name_of kinds.File file.now) (λ _. Has (Stores v.now) limits.now.content (name_of kinds.File file.now)) result }
    ensures quiet { IsQuiet (F.clock fs.old) (F.clock fs.new) (F.was fs.old) (F.was fs.new) (F.view fs.old) (F.view fs.new) }
    ensures keeps_room { F.spare fs.old ≤ F.spare fs.new }
    ensures cause { HasCause (F.faults fs.old) (F.faults fs.new) result }
{
    let name = ObjName {
        csum: *file,
        kind: Kind::File,
    };
    match look_at_object(alloc, fs, &name, limits)? {
        Looked::Here(object) => file_of(&object),
        Looked::Absent => Ok(Looked::Absent),
        Looked::Damaged => Ok(Looked::Damaged),
    }
}

fn commit_of(alloc: Global, object: &Checked) -> Result<Looked<Commit>, FsErr>
    ensures { Reads kinds.Commit 0 object.now.bytes (λ c. ReadsCommit (λ x. x) object.now.bytes (Ok (parts_of c))) result }
{
    match read_commit(alloc, object.bytes()) {
        Ok(commit) => Ok(Looked::Here(commit)),
        Err(ObjFault::NoMemory) => Err(FsErr::NoMemory),
        Err(_) => Ok(Looked::Damaged),
    }
}

fn entries_of(alloc: Global, object: &Checked) -> Result<Looked<DirTree>, FsErr>
    ensures { Reads kinds.DirTree 0 object.now.bytes (λ t. ReadsDirTree (λ x. x) object.now.bytes (Ok (record { files = t.files; folders = t.folders }))) result }
{
    match read_dirtree(alloc, object.bytes()) {
        Ok(tree) => Ok(Looked::Here(tree)),
        Err(ObjFault::NoMemory) => Err(FsErr::NoMemory),
        Err(_) => Ok(Looked::Damaged),
    }
}

fn attributes_of(alloc: Global, object: &Checked) -> Result<Looked<Meta>, FsErr>
    ensures { Reads kinds.DirMeta 0 object.now.bytes (λ m. ReadsDirMeta (λ x. x) object.now.bytes (Ok m)) result }
{
    match read_dirmeta(alloc, object.bytes()) {
        Ok(folder) => Ok(Looked::Here(folder.meta)),
        Err(ObjFault::NoMemory) => Err(FsErr::NoMemory),
        Err(_) => Ok(Looked::Damaged),
    }
}

fn file_of(object: &Checked) -> Result<Looked<()>, FsErr>
    ensures read { result ≡ Ok (Here tt) }
    ensures formed { HasForm object.now.name.kind object.now.limit object.now.bytes }
{
    let _bytes = object.bytes();
    Ok(Looked::Here(()))
}
