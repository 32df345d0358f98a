ghost use Rattle.std.specs.Prelude.{◌≡◌, ◌<◌, ◌+◌, ◌^◌, IfOk};
ghost use Rattle.fs_trait.specs.declared.task.Need.TheVariants as needs;
ghost use Rattle.boot_model.specs.Items.{IsKver};
ghost use Rattle.kernel_copy.specs.Work.{IsPlaced, begun, left, left_second, put_begun, second_begun};

mod steps;

use crate::files::KernelFiles;
use crate::paths::{initramfs_path, kernel_path, vmlinuz_path};
use crate::phase::KernelPhase;
use file_copy::{CopyPlan, PutCopy};
use folder_build::file_meta;
use fs_trait::Need;
use ost_types::{Csum, FsPath, Kind, NoMemory, ObjName, TryCopy};
use repo_layout::{OsName, object_path};
use std::alloc::Global;
use std::marker::Model;

/// The task that puts copies of a kernel and of what it first mounts into their folder, a step at a time. It makes the folder where
/// nothing stands. A copy that is there already stays; any other leaf in its place is replaced in one call by a whole copy, whose
/// bytes are synced. That the names outlast a crash is for a later sync.
#[derive(Drop, Debug)]
pub struct KernelTask {
    alloc: Global,
    os: OsName,
    files: KernelFiles,
    folder: FsPath,
    kernel: PutCopy,
    initramfs: Option<PutCopy>,
    phase: KernelPhase,
}

impl Model for KernelTask {
    ghost use Rattle.kernel_copy.specs.Work.{KernelCopying, IsMade};

    ghost Value = { KernelCopying };

    ghost view = { λ a. record { os = a.os; files = a.files; folder = a.folder; kernel = a.kernel; initramfs = a.initramfs; phase = a.phase } };

    ghost invariant = { λ a. IsMade (record { os = a.os; files = a.files; folder = a.folder; kernel = a.kernel; initramfs = a.initramfs; phase = a.phase }) };
}

impl KernelTask {
    /// Puts the copies by way of the staging path, which nobody else uses.
    pub fn new(
        alloc: Global,
        stage: FsPath,
        os: OsName,
        files: KernelFiles,
    ) -> Result<KernelTask, NoMemory>
        requires version { IsKver files.kver }
        requires placed { IsPlaced stage os files }
        ensures { IfOk result (λ t. t ≡ begun stage os files) }
    {
        let folder = kernel_path(alloc, &os, &files.bootcsum)?;
        let at = vmlinuz_path(alloc, &os, &files)?;
        let kernel = put_copy(alloc, stage.copy()?, at, &files.kernel)?;
        let initramfs = put_second(alloc, stage, &os, &files)?;
        Ok(KernelTask {
            alloc,
            os,
            files,
            folder,
            kernel,
            initramfs,
            phase: KernelPhase::Folder,
        })
    }

    /// The stateroot whose kernel it is.
    pub fn os(&self) -> &OsName
        ensures { result.now ≡ self.now.os }
    {
        &self.os
    }

    /// What the kernel boots with.
    pub fn files(&self) -> &KernelFiles
        ensures { result.now ≡ self.now.files }
    {
        &self.files
    }

    /// What the next step does.
    pub fn phase(&self) -> KernelPhase
        ensures { result ≡ self.now.phase }
    {
        self.phase
    }

    /// The lock under which the next step must stand.
    pub fn needs(&self) -> Need
        ensures { result ≡ needs.Nothing }
    {
        Need::Nothing
    }

    /// At most so many steps are left; each byte that isn't copied counts as one, and a file whose copy isn't begun as the longest.
    pub fn left(&self) -> u128
        ensures value { result ≡ left self.now }
        ensures small { result < 2 ^ 67 }
    {
        match self.phase {
            KernelPhase::Folder => self.kernel.left() + self.left_second() + 2,
            KernelPhase::Kernel => self.kernel.left() + self.left_second() + 1,
            KernelPhase::Initramfs => self.left_second(),
            KernelPhase::Ended => 0,
        }
    }

    // those of the copy behind the kernel's
    fn left_second(&self) -> u128
        ensures value { result ≡ left_second self.now.initramfs }
        ensures small { result < 2 ^ 65 + 7 }
    {
        match &self.initramfs {
            None => 0,
            Some(putting) => putting.left(),
        }
    }
}

/// What puts a copy of an object at a path.
fn put_copy(alloc: Global, stage: FsPath, at: FsPath, csum: &Csum) -> Result<PutCopy, NoMemory>
    ensures { IfOk result (λ t. t ≡ put_begun stage at csum.now) }
{
    let name = ObjName {
        csum: *csum,
        kind: Kind::File,
    };
    let from = object_path(alloc, &name)?;
    let meta = file_meta(alloc);
    PutCopy::new(CopyPlan { from, stage, meta }, at)
}

/// What puts the copy behind the kernel's, if there is to be one.
fn put_second(
    alloc: Global,
    stage: FsPath,
    os: &OsName,
    files: &KernelFiles,
) -> Result<Option<PutCopy>, NoMemory>
    requires { IsKver files.now.kver }
    ensures { IfOk result (λ o. o ≡ second_begun stage os.now files.now) }
{
    let Some(csum) = &files.initramfs else {
        return Ok(None);
    };
    let at = initramfs_path(alloc, os, files)?;
    Ok(Some(put_copy(alloc, stage, at, csum)?))
}
