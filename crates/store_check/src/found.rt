//! Objects that were found sound, looked up, and read again where they weren't kept.
ghost use Rattle.std.specs.Prelude.{◌≡◌, ◌≤◌, Contains, IsTrue, Some, Ok, IfOk, IfErr, IfSome};
ghost use Rattle.fs_trait.specs.View.{View};
ghost use Rattle.fs_trait.specs.Effect.{HasCause, IsQuiet, OfNone};
ghost use Rattle.ost_forms.specs.Commit.{CommitParts, ReadsCommit};
ghost use Rattle.ost_forms.specs.DirTree.{ReadsDirTree};
ghost use Rattle.repo_model.specs.Objects.{Stores};
ghost use Rattle.repo_model.specs.Trees.{HasCommit, HasEntries};
ghost use Rattle.store_check.specs.Keeping.{AreKept};

use crate::kept::{Kept, SoundObjects};
use fs_trait::{Fs, FsErr};
use obj_store::{LoadFault, load};
use ost_forms::{DirTree, read_commit, read_dirtree};
use ost_objects::Checked;
use ost_types::{Csum, Kind, Limits, ObjName};
use std::alloc::Global;

/// Whether the object of this name was found.
pub fn is_listed(objects: &SoundObjects, name: &ObjName) -> bool
    ensures { IsTrue result → Contains objects.now.names.items name.now }
{
    let names = objects.names.as_slice();
    match names.binary_search(name) {
        Ok(at) => names[at] == *name,
        Err(_) => false,
    }
}

/// The entries of a folder, if they are there.
pub fn entries_of<F: Fs>(
    alloc: Global,
    fs: &mut F,
    kept: &Kept,
    tree: &Csum,
    limits: &Limits,
) -> Result<Option<DirTree>, FsErr>
    requires { (v : View) → F.view fs.old ≡ Some v → AreKept v.now kept.now }
    ensures told { (v : View) → F.view fs.old ≡ Some v → IfOk result (λ o. IfSome o (λ t. HasEntries (Stores v.now) tree.now (record { files = t.files; folders = t.folders }))) }
    ensures named { (v : View) → F.view fs.old ≡ Some v → IfErr result OfNone }
    ensures quiet { IsQuiet (F.clock fs.old) (F.clock fs.new) (F.was fs.old) (F.was fs.new) (F.view fs.old) (F.view fs.new) }
    ensures keeps_room { F.spare fs.old ≤ F.spare fs.new }
    ensures cause { HasCause (F.faults fs.old) (F.faults fs.new) result }
{
    let name = ObjName {
        csum: *tree,
        kind: Kind::DirTree,
    };
    if let Some(bytes) = kept.find(&name) {
        return Ok(entries_in(alloc, bytes));
    }
    match object(alloc, fs, &name, limits)? {
        Some(object) => Ok(entries_in(alloc, object.bytes())),
        None => Ok(None),
    }
}

/// The sums of the root's entries and attributes in a commit, if it is there.
pub fn root_of<F: Fs>(
    alloc: Global,
    fs: &mut F,
    kept: &Kept,
    commit: &Csum,
    limits: &Limits,
) -> Result<Option<(Csum, Csum)>, FsErr>
    requires { (v : View) → F.view fs.old ≡ Some v → AreKept v.now kept.now }
    ensures told { (v : View) → F.view fs.old ≡ Some v → IfOk result (λ o. IfSome o (λ root. (c : CommitParts) × HasCommit (Stores v.now) commit.now c × (root.0 ≡ c.tree) × (root.1 ≡ c.meta))) }
    ensures named { (v : View) → F.view fs.old ≡ Some v → IfErr result OfNone }
    ensures quiet { IsQuiet (F.clock fs.old) (F.clock fs.new) (F.was fs.old) (F.was fs.new) (F.view fs.old) (F.view fs.new) }
    ensures keeps_room { F.spare fs.old ≤ F.spare fs.new }
    ensures cause { HasCause (F.faults fs.old) (F.faults fs.new) result }
{
    let name = ObjName {
        csum: *commit,
        kind: Kind::Commit,
    };
    if let Some(bytes) = kept.find(&name) {
        return Ok(root_in(alloc, bytes));
    }
    match object(alloc, fs, &name, limits)? {
        Some(object) => Ok(root_in(alloc, object.bytes())),
        None => Ok(None),
    }
}

/// The object of this name, read again, if it is there.
fn object<F: Fs>(
    alloc: Global,
    fs: &mut F,
    name: &ObjName,
    limits: &Limits,
) -> Result<Option<Checked>, FsErr>
    ensures told { (v : View) → F.view fs.old ≡ Some v → IfOk result (λ o. IfSome o (λ c. Stores v.now name.now c.bytes)) }
    ensures named { (v : View) → F.view fs.old ≡ Some v → IfErr result OfNone }
    ensures quiet { IsQuiet (F.clock fs.old) (F.clock fs.new) (F.was fs.old) (F.was fs.new) (F.view fs.old) (F.view fs.new) }
    ensures keeps_room { F.spare fs.old ≤ F.spare fs.new }
    ensures cause { HasCause (F.faults fs.old) (F.faults fs.new) result }
{
    match load(alloc, fs, name, limits) {
        Ok(found) => Ok(found),
        Err(LoadFault::Damaged(_)) => Ok(None),
        Err(LoadFault::Fs(refusal)) => Err(refusal),
        Err(LoadFault::NoMemory) => Err(FsErr::NoMemory),
    }
}

fn entries_in(alloc: Global, bytes: &[u8]) -> Option<DirTree>
    ensures { IfSome result (λ t. ReadsDirTree (λ x. x) bytes.now (Ok (record { files = t.files; folders = t.folders }))) }
{
    match read_dirtree(alloc, bytes) {
        Ok(tree) => Some(tree),
        Err(_) => None,
    }
}

fn root_in(alloc: Global, bytes: &[u8]) -> Option<(Csum, Csum)>
    ensures { IfSome result (λ root. (c : CommitParts) × ReadsCommit (λ x. x) bytes.now (Ok c) × (root.0 ≡ c.tree) × (root.1 ≡ c.meta)) }
{
    match read_commit(alloc, bytes) {
        Ok(commit) => Some((commit.tree, commit.meta)),
        Err(_) => None,
    }
}
