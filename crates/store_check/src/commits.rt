//! Commits without a mark are whole.
ghost use Rattle.std.specs.Prelude.{◌≡◌, ◌≤◌, ◌⊎◌, Some, Err, OnOk};
ghost use Rattle.fs_trait.specs.View.{Disk, View};
ghost use Rattle.fs_trait.specs.Effect.{IsQuiet};
ghost use Rattle.ost_types.specs.declared.limits.Limits as limits_of;
ghost use Rattle.ost_types.specs.declared.object.Kind.TheVariants as kinds;
ghost use Rattle.repo_model.specs.Objects.{Marked, path_of};
ghost use Rattle.tree_read.specs.Whole.{IsFailed, ReadsTree};
ghost use Rattle.store_check.specs.declared.fault.CommitsFault.TheVariants as faults;
ghost use Rattle.store_check.specs.Faults.{HasCauseOf, CommitsFailed};
ghost use Rattle.store_check.specs.Objects.{AreFound};
ghost use Rattle.store_check.specs.Commits.{ChecksName, ChecksTrees};
ghost use Rattle.store_check.specs.Folders.{AreKnown};
ghost use Rattle.store_check.specs.Refs.{ChecksCommits};

use crate::fault::CommitsFault;
use crate::folders::{Folders, is_whole};
use crate::kept::SoundObjects;
use crate::marks::is_marked;
use crate::refs::check_refs;
use fs_trait::Fs;
use ost_types::{Csum, Kind, Limits, NoMemory, ObjName};
use repo_layout::{RefName, object_path};
use std::alloc::Global;
use std::collections::BTreeMap;
use tree_read::{TreeFault, tree_of};

/// Each of these commits that has no mark is whole within the limits, and each ref names one of them; else the first path is
/// told at which that isn't so, and the first object that is missing or damaged, or past a limit. Commits come before refs.
///
/// The objects are those that `check_objects` found. A commit or the entries of a folder that it kept aren't read; of the others the
/// entries of each folder are read once, however many commits share it. For the first commit that isn't whole its tree is read once
/// more. Nothing is written.
pub fn check_commits<F: Fs>(
    alloc: Global,
    fs: &mut F,
    objects: &SoundObjects,
    refs: &[(RefName, Csum)],
    limits: &Limits,
) -> Result<(), CommitsFault>
    requires { (v : View) → F.view fs.old ≡ Some v → AreFound v.now limits.now objects.now }
    ensures told { (v : View) → F.view fs.old ≡ Some v → ChecksCommits v.now limits.now refs.now result }
    ensures quiet { IsQuiet (F.clock fs.old) (F.clock fs.new) (F.was fs.old) (F.was fs.new) (F.view fs.old) (F.view fs.new) }
    ensures keeps_room { F.spare fs.old ≤ F.spare fs.new }
    ensures cause { HasCauseOf (F.faults fs.old) (F.faults fs.new) (CommitsFailed result) }
{
    check_trees(alloc, fs, objects, limits)?;
    check_refs(alloc, fs, refs)
}

fn check_trees<F: Fs>(
    alloc: Global,
    fs: &mut F,
    objects: &SoundObjects,
    limits: &Limits,
) -> Result<(), CommitsFault>
    requires { (v : View) → F.view fs.old ≡ Some v → AreFound v.now limits.now objects.now }
    ensures told { (v : View) → F.view fs.old ≡ Some v → ChecksTrees v.now limits.now result }
    ensures quiet { IsQuiet (F.clock fs.old) (F.clock fs.new) (F.was fs.old) (F.was fs.new) (F.view fs.old) (F.view fs.new) }
    ensures keeps_room { F.spare fs.old ≤ F.spare fs.new }
    ensures cause { HasCauseOf (F.faults fs.old) (F.faults fs.new) (CommitsFailed result) }
{
    let mut known = BTreeMap::new(alloc);
    for name in objects.names.as_slice() {
        check_name(alloc, fs, objects, limits, &mut known, name)?;
    }
    Ok(())
}

/// A commit without a mark is whole. Its tree as such is read only where its folders don't tell.
fn check_name<F: Fs>(
    alloc: Global,
    fs: &mut F,
    objects: &SoundObjects,
    limits: &Limits,
    known: &mut Folders,
    name: &ObjName,
) -> Result<(), CommitsFault>
    requires found { (v : View) → F.view fs.old ≡ Some v → AreFound v.now limits.now objects.now }
    requires known { (v : View) → F.view fs.old ≡ Some v → AreKnown v.now limits.now.content known.old }
    ensures told { (v : View) → F.view fs.old ≡ Some v → ChecksName v.now limits.now name.now result }
    ensures known { (v : View) → F.view fs.old ≡ Some v → OnOk result (AreKnown v.now limits.now.content known.new) }
    ensures quiet { IsQuiet (F.clock fs.old) (F.clock fs.new) (F.was fs.old) (F.was fs.new) (F.view fs.old) (F.view fs.new) }
    ensures keeps_room { F.spare fs.old ≤ F.spare fs.new }
    ensures cause { HasCauseOf (F.faults fs.old) (F.faults fs.new) (CommitsFailed result) }
{
    if name.kind != Kind::Commit {
        return Ok(());
    }
    if is_marked(alloc, fs, &name.csum)? {
        return Ok(());
    }
    if is_whole(alloc, fs, objects, limits, known, &name.csum)? {
        return Ok(());
    }
    match tree_of(alloc, fs, &name.csum, limits) {
        Ok(tree) => {
            drop(tree);
            Ok(())
        }
        Err(fault) => Err(told(alloc, name, fault)),
    }
}

/// What is told of the commit where its tree isn't read.
fn told(alloc: Global, name: &ObjName, fault: TreeFault) -> CommitsFault
    ensures told { (d : Disk) (limits : limits_of.Limits) → name.now.kind ≡ kinds.Commit → ¬ (Marked d name.now.csum) → ReadsTree d limits name.now.csum (Err fault) → ChecksName d limits name.now (Err result) }
    ensures failed { CommitsFailed {T = Unit {0}} (Err result) → IsFailed {T = Unit {0}} (Err fault) }
{
    match fault {
        TreeFault::Absent(object) => incomplete(alloc, name, object),
        TreeFault::Damaged(object) => incomplete(alloc, name, object),
        TreeFault::Fs(refusal) => CommitsFault::Fs(refusal),
        TreeFault::NoMemory => CommitsFault::NoMemory,
    }
}

fn incomplete(alloc: Global, name: &ObjName, object: ObjName) -> CommitsFault
    ensures { (result ≡ faults.Incomplete (path_of name.now) object) ⊎ (result ≡ faults.NoMemory) }
{
    match object_path(alloc, name) {
        Ok(path) => CommitsFault::Incomplete(path, object),
        Err(NoMemory) => CommitsFault::NoMemory,
    }
}
