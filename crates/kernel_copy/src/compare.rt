//! Whether the copies are there.
ghost use Rattle.std.specs.Prelude.{◌≡◌, ◌≤◌, Some, IfErr};
ghost use Rattle.fs_trait.specs.View.{View};
ghost use Rattle.fs_trait.specs.Effect.{HasCause, IsQuiet, OfFinding};
ghost use Rattle.boot_model.specs.Items.{IsKver};
ghost use Rattle.file_copy.specs.Comparing as compare;
ghost use Rattle.kernel_copy.specs.Copies.{Finds};
ghost use Rattle.kernel_copy.specs.Compared.{FindsAt, FindsSecond, Tells, TellsFiles};

use crate::files::KernelFiles;
use crate::paths::{initramfs_path, vmlinuz_path};
use file_copy::FileCompare;
use fs_trait::{Fs, FsErr, StepResult};
use ost_types::{Csum, FsPath, Kind, ObjName, TryCopy};
use repo_layout::{OsName, object_path};
use std::alloc::Global;

/// The first of the copies, in the order of paths, that isn't a regular file with the bytes of its object; None where all are.
pub fn first_other_copy<F: Fs>(
    alloc: Global,
    fs: &mut F,
    os: &OsName,
    files: &KernelFiles,
) -> Result<Option<FsPath>, FsErr>
    requires { IsKver files.now.kver }
    ensures told { (v : View) → F.view fs.old ≡ Some v → Finds v.now os.now files.now result }
    ensures named { IfErr result OfFinding }
    ensures quiet { IsQuiet (F.clock fs.old) (F.clock fs.new) (F.was fs.old) (F.was fs.new) (F.view fs.old) (F.view fs.new) }
    ensures keeps_room { F.spare fs.old ≤ F.spare fs.new }
    ensures cause { HasCause (F.faults fs.old) (F.faults fs.new) result }
{
    match other_second(alloc, fs, os, files)? {
        Some(at) => Ok(Some(at)),
        None => {
            let at = vmlinuz_path(alloc, os, files)?;
            other_at(alloc, fs, at, &files.kernel)
        }
    }
}

// where the copy of what the kernel first mounts should be, and isn't
fn other_second<F: Fs>(
    alloc: Global,
    fs: &mut F,
    os: &OsName,
    files: &KernelFiles,
) -> Result<Option<FsPath>, FsErr>
    requires { IsKver files.now.kver }
    ensures told { (v : View) → F.view fs.old ≡ Some v → FindsSecond v.now os.now files.now result }
    ensures named { IfErr result OfFinding }
    ensures quiet { IsQuiet (F.clock fs.old) (F.clock fs.new) (F.was fs.old) (F.was fs.new) (F.view fs.old) (F.view fs.new) }
    ensures keeps_room { F.spare fs.old ≤ F.spare fs.new }
    ensures cause { HasCause (F.faults fs.old) (F.faults fs.new) result }
{
    let Some(csum) = &files.initramfs else {
        return Ok(None);
    };
    let at = initramfs_path(alloc, os, files)?;
    other_at(alloc, fs, at, csum)
}

// the path, where it has no copy of the object
fn other_at<F: Fs>(
    alloc: Global,
    fs: &mut F,
    at: FsPath,
    csum: &Csum,
) -> Result<Option<FsPath>, FsErr>
    ensures told { (v : View) → F.view fs.old ≡ Some v → FindsAt v.now at csum.now result }
    ensures named { IfErr result OfFinding }
    ensures quiet { IsQuiet (F.clock fs.old) (F.clock fs.new) (F.was fs.old) (F.was fs.new) (F.view fs.old) (F.view fs.new) }
    ensures keeps_room { F.spare fs.old ≤ F.spare fs.new }
    ensures cause { HasCause (F.faults fs.old) (F.faults fs.new) result }
{
    if is_copy(alloc, fs, &at, csum)? {
        return Ok(None);
    }
    Ok(Some(at))
}

fn is_copy<F: Fs>(alloc: Global, fs: &mut F, at: &FsPath, csum: &Csum) -> Result<bool, FsErr>
    ensures told { (v : View) → F.view fs.old ≡ Some v → Tells v.now at.now csum.now result }
    ensures named { IfErr result OfFinding }
    ensures quiet { IsQuiet (F.clock fs.old) (F.clock fs.new) (F.was fs.old) (F.was fs.new) (F.view fs.old) (F.view fs.new) }
    ensures keeps_room { F.spare fs.old ≤ F.spare fs.new }
    ensures cause { HasCause (F.faults fs.old) (F.faults fs.new) result }
{
    let name = ObjName {
        csum: *csum,
        kind: Kind::File,
    };
    let from = object_path(alloc, &name)?;
    run(fs, FileCompare::new(at.copy()?, from))
}

// the comparison from its first step to its last
fn run<F: Fs>(fs: &mut F, task: FileCompare) -> Result<bool, FsErr>
    requires { task ≡ compare.begun task.one task.other }
    ensures told { (v : View) → F.view fs.old ≡ Some v → TellsFiles v.now task.one task.other result }
    ensures named { IfErr result OfFinding }
    ensures quiet { IsQuiet (F.clock fs.old) (F.clock fs.new) (F.was fs.old) (F.was fs.new) (F.view fs.old) (F.view fs.new) }
    ensures keeps_room { F.spare fs.old ≤ F.spare fs.new }
    ensures cause { HasCause (F.faults fs.old) (F.faults fs.new) result }
{
    let mut comparing = task;
    'steps: loop {
        match comparing.step(fs)? {
            StepResult::More => {}
            StepResult::Done(same) => return Ok(same),
        }
    }
}
