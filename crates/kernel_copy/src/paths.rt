//! Where the copies stand.
ghost use Rattle.std.specs.Prelude.{◌≡◌, IfOk};
ghost use Rattle.ost_types.specs.Path.{IsPath};
ghost use Rattle.repo_layout.specs.BootPaths.{kernel_path};
ghost use Rattle.boot_model.specs.Items.{IsKver};
ghost use Rattle.kernel_copy.specs.Copies.{initramfs_path, vmlinuz_path};

use crate::files::KernelFiles;
use crate::names::{folder_name, initramfs_name, vmlinuz_name};
use ost_types::{Csum, FsPath, NoMemory};
use repo_layout::{Folder, OsName, folder_path};
use std::alloc::Global;

/// The folder of the copies: `/boot/ostree/<stateroot>-<sum>`.
pub fn kernel_path(alloc: Global, os: &OsName, bootcsum: &Csum) -> Result<FsPath, NoMemory>
    ensures value { IfOk result (λ p. p ≡ kernel_path os.now bootcsum.now) }
    ensures path { IfOk result IsPath }
{
    let name = folder_name(alloc, os, bootcsum)?;
    folder_path(alloc, Folder::Kernels)?.child(&name)
}

/// The copy of the kernel: `vmlinuz-<version>` in that folder.
pub fn vmlinuz_path(alloc: Global, os: &OsName, files: &KernelFiles) -> Result<FsPath, NoMemory>
    requires { IsKver files.now.kver }
    ensures { IfOk result (λ p. p ≡ vmlinuz_path os.now files.now) }
{
    let name = vmlinuz_name(alloc, &files.kver)?;
    kernel_path(alloc, os, &files.bootcsum)?.child(&name)
}

/// The copy of what it first mounts: `initramfs-<version>.img` in that folder.
pub fn initramfs_path(alloc: Global, os: &OsName, files: &KernelFiles) -> Result<FsPath, NoMemory>
    requires { IsKver files.now.kver }
    ensures { IfOk result (λ p. p ≡ initramfs_path os.now files.now) }
{
    let name = initramfs_name(alloc, &files.kver)?;
    kernel_path(alloc, os, &files.bootcsum)?.child(&name)
}
