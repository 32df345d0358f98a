//! The objects that a disk has, and its commits.
ghost use Rattle.std.specs.Prelude.{◌≡◌, Some, IfOk};
ghost use Rattle.store_check.specs.declared.fault.ObjectsFault.TheVariants as objects;
ghost use Rattle.fs_trait.specs.View.{View};
ghost use Rattle.fs_trait.specs.Effect.{IsQuiet};
ghost use Rattle.store_check.specs.Objects.{AreFound};
ghost use Rattle.sys_open.specs.Damages.{Objects};
ghost use Rattle.sys_open.specs.Faults.{HasReason};
ghost use Rattle.sys_open.specs.Opening.{ToldBy};
ghost use Rattle.sys_open.specs.Stored.{IsCommitsFault, IsObjectsFault, LooksAtCommits};

use crate::fault::{OpenFault, Why, refused};
use fs_trait::Fs;
use ost_objects::CheckFault;
use ost_types::{Csum, FsPath, Limits, ObjName};
use repo_layout::{Folder, RefName, folder_path, object_path};
use std::alloc::Global;
use std::thread::Threads;
use store_check::{CommitsFault, ObjectsFault, SoundObjects, check_commits, check_objects};

/// Reads each object, and tells the names of all, ascending, and what is kept of them.
pub fn read_objects<R: Threads + Sync, F: Fs>(
    rt: &R,
    alloc: Global,
    fs: &mut F,
    limits: &Limits,
) -> Result<SoundObjects, OpenFault>
    ensures told { (v : View) → F.view fs.old ≡ Some v → ToldBy Objects limits.now v.now result }
    ensures found { (v : View) → F.view fs.old ≡ Some v → IfOk result (AreFound v.now limits.now) }
    ensures quiet { IsQuiet (F.clock fs.old) (F.clock fs.new) (F.was fs.old) (F.was fs.new) (F.view fs.old) (F.view fs.new) }
    ensures reason { HasReason (F.faults fs.old) (F.faults fs.new) result }
{
    match check_objects(rt, alloc, fs, limits) {
        Ok(found) => Ok(found),
        Err(fault) => Err(of_objects(alloc, fault)),
    }
}

// what is told of the objects
fn of_objects(alloc: Global, fault: ObjectsFault) -> OpenFault
    ensures { IsObjectsFault fault result }
{
    match fault {
        ObjectsFault::TooMany(count) => too_many(alloc, count),
        ObjectsFault::Damaged(name, fault) => bad_object(alloc, name, fault),
        ObjectsFault::Fs(error) => refused(&FsPath::root(alloc), error),
        ObjectsFault::NoMemory => OpenFault::NoMemory,
    }
}

fn too_many(alloc: Global, count: u64) -> OpenFault
    ensures { IsObjectsFault (objects.TooMany count) result }
{
    match folder_path(alloc, Folder::Objects) {
        Ok(at) => OpenFault::Damaged(at, Why::TooMany(count)),
        Err(_) => OpenFault::NoMemory,
    }
}

fn bad_object(alloc: Global, name: ObjName, fault: CheckFault) -> OpenFault
    ensures { IsObjectsFault (objects.Damaged name fault) result }
{
    match object_path(alloc, &name) {
        Ok(at) => OpenFault::Damaged(at, Why::BadObject(fault)),
        Err(_) => OpenFault::NoMemory,
    }
}

/// Looks into what the commits without a mark name, and whether the refs name such commits.
pub fn look_at_commits<F: Fs>(
    alloc: Global,
    fs: &mut F,
    found: &SoundObjects,
    refs: &[(RefName, Csum)],
    limits: &Limits,
) -> Result<(), OpenFault>
    requires { (v : View) → F.view fs.old ≡ Some v → AreFound v.now limits.now found.now }
    ensures told { (v : View) → F.view fs.old ≡ Some v → LooksAtCommits limits.now v.now refs.now result }
    ensures quiet { IsQuiet (F.clock fs.old) (F.clock fs.new) (F.was fs.old) (F.was fs.new) (F.view fs.old) (F.view fs.new) }
    ensures reason { HasReason (F.faults fs.old) (F.faults fs.new) result }
{
    match check_commits(alloc, fs, found, refs, limits) {
        Ok(()) => Ok(()),
        Err(fault) => Err(of_commits(alloc, fault)),
    }
}

fn of_commits(alloc: Global, fault: CommitsFault) -> OpenFault
    ensures { IsCommitsFault fault result }
{
    match fault {
        CommitsFault::Incomplete(at, object) => OpenFault::Damaged(at, Why::Incomplete(object)),
        CommitsFault::Fs(error) => refused(&FsPath::root(alloc), error),
        CommitsFault::NoMemory => OpenFault::NoMemory,
    }
}
