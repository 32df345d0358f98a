//! One object is read.
ghost use Rattle.std.specs.Prelude.{◌≡◌, ◌≤◌, ℕ, List, Some, Ok};
ghost use Rattle.ost_types.specs.declared.object.Kind.TheVariants as kinds;
ghost use Rattle.ost_forms.specs.Commit.{CommitParts, ReadsCommit};
ghost use Rattle.ost_forms.specs.DirTree.{ReadsDirTree};
ghost use Rattle.fs_trait.specs.View.{View};
ghost use Rattle.fs_trait.specs.Effect.{IsQuiet};
ghost use Rattle.repo_model.specs.Objects.{Stores};
ghost use Rattle.repo_model.specs.Trees.{HasCommit, HasEntries, name_of};
ghost use Rattle.prune_mark.specs.Reads.{Finds, HasCauseOf, IsFailed, IsOf, ReadsAs};

use crate::fault::MarkFault;
use crate::links::Links;
use fs_trait::Fs;
use obj_store::{LoadFault, load};
use ost_forms::{DirTree, ObjFault, read_commit, read_dirtree};
use ost_objects::Checked;
use ost_types::{Csum, Kind, Limits, ObjName};
use std::alloc::Global;

/// The object of this name.
fn object<F: Fs>(
    alloc: Global,
    fs: &mut F,
    name: &ObjName,
    limits: &Limits,
) -> Result<Checked, MarkFault>
    ensures told { (v : View) → F.view fs.old ≡ Some v → Finds v.now limits.now.content name.now (λ o. Stores v.now name.now o.bytes) result }
    ensures quiet { IsQuiet (F.clock fs.old) (F.clock fs.new) (F.was fs.old) (F.was fs.new) (F.view fs.old) (F.view fs.new) }
    ensures keeps_room { F.spare fs.old ≤ F.spare fs.new }
    ensures cause { HasCauseOf (F.faults fs.old) (F.faults fs.new) (IsFailed result) }
{
    match load(alloc, fs, name, limits) {
        Ok(Some(object)) => Ok(object),
        Ok(None) => Err(MarkFault::Absent(*name)),
        Err(LoadFault::Damaged(_)) => Err(MarkFault::Damaged(*name)),
        Err(LoadFault::Fs(refusal)) => Err(MarkFault::Fs(refusal)),
        Err(LoadFault::NoMemory) => Err(MarkFault::NoMemory),
    }
}

/// What the commit names.
pub fn links_of<F: Fs>(
    alloc: Global,
    fs: &mut F,
    commit: &Csum,
    limits: &Limits,
) -> Result<Links, MarkFault>
    ensures told { (v : View) → F.view fs.old ≡ Some v → Finds v.now limits.now.content (name_of kinds.Commit commit.now) (λ links. (c : CommitParts) × HasCommit (Stores v.now) commit.now c × IsOf c links) result }
    ensures quiet { IsQuiet (F.clock fs.old) (F.clock fs.new) (F.was fs.old) (F.was fs.new) (F.view fs.old) (F.view fs.new) }
    ensures keeps_room { F.spare fs.old ≤ F.spare fs.new }
    ensures cause { HasCauseOf (F.faults fs.old) (F.faults fs.new) (IsFailed result) }
{
    let name = ObjName {
        csum: *commit,
        kind: Kind::Commit,
    };
    match object(alloc, fs, &name, limits) {
        Ok(object) => links_in(alloc, commit, &object),
        Err(fault) => Err(fault),
    }
}

/// The entries of a folder.
pub fn entries_of<F: Fs>(
    alloc: Global,
    fs: &mut F,
    tree: &Csum,
    limits: &Limits,
) -> Result<DirTree, MarkFault>
    ensures told { (v : View) → F.view fs.old ≡ Some v → Finds v.now limits.now.content (name_of kinds.DirTree tree.now) (λ t. HasEntries (Stores v.now) tree.now (record { files = t.files; folders = t.folders })) result }
    ensures quiet { IsQuiet (F.clock fs.old) (F.clock fs.new) (F.was fs.old) (F.was fs.new) (F.view fs.old) (F.view fs.new) }
    ensures keeps_room { F.spare fs.old ≤ F.spare fs.new }
    ensures cause { HasCauseOf (F.faults fs.old) (F.faults fs.new) (IsFailed result) }
{
    let name = ObjName {
        csum: *tree,
        kind: Kind::DirTree,
    };
    match object(alloc, fs, &name, limits) {
        Ok(object) => entries_in(alloc, tree, &object),
        Err(fault) => Err(fault),
    }
}

fn links_in(alloc: Global, commit: &Csum, object: &Checked) -> Result<Links, MarkFault>
    ensures { ReadsAs (kinds.Commit) commit.now object.now.bytes (λ links. (c : CommitParts) × ReadsCommit (λ x. x) object.now.bytes (Ok c) × IsOf c links) result }
{
    match read_commit(alloc, object.bytes()) {
        Ok(found) => Ok(Links {
            parent: found.parent,
            tree: found.tree,
            meta: found.meta,
        }),
        Err(ObjFault::NoMemory) => Err(MarkFault::NoMemory),
        Err(_) => Err(MarkFault::Damaged(ObjName {
            csum: *commit,
            kind: Kind::Commit,
        })),
    }
}

fn entries_in(alloc: Global, tree: &Csum, object: &Checked) -> Result<DirTree, MarkFault>
    ensures { ReadsAs (kinds.DirTree) tree.now object.now.bytes (λ t. ReadsDirTree (λ x. x) object.now.bytes (Ok (record { files = t.files; folders = t.folders }))) result }
{
    match read_dirtree(alloc, object.bytes()) {
        Ok(found) => Ok(found),
        Err(ObjFault::NoMemory) => Err(MarkFault::NoMemory),
        Err(_) => Err(MarkFault::Damaged(ObjName {
            csum: *tree,
            kind: Kind::DirTree,
        })),
    }
}
