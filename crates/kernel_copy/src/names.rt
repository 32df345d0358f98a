//! Names of the copies and of their folder.
ghost use Rattle.std.specs.Prelude.{◌≡◌, IfOk};
ghost use Rattle.ost_types.specs.Text.{IsName};
ghost use Rattle.repo_layout.specs.BootPaths.{kernel_folder};
ghost use Rattle.boot_model.specs.Items.{IsKver};
ghost use Rattle.kernel_copy.specs.Copies.{initramfs_name, vmlinuz_name};

use ost_types::{Bytes, Csum, Name, NoMemory};
use repo_layout::OsName;
use std::alloc::Global;

/// The name of the folder: `<stateroot>-<sum>`.
pub(crate) fn folder_name(alloc: Global, os: &OsName, bootcsum: &Csum) -> Result<Name, NoMemory>
    ensures value { IfOk result (λ n. n ≡ kernel_folder os.now bootcsum.now) }
    ensures name { IfOk result IsName }
{
    let mut text = Bytes::from_slice(alloc, os.as_slice())?;
    text.push(b'-')?;
    text.append(&bootcsum.to_hex())?;
    known_name(alloc, text.as_slice())
}

/// The name of a kernel: `vmlinuz-<version>`.
pub(crate) fn vmlinuz_name(alloc: Global, kver: &Name) -> Result<Name, NoMemory>
    requires { IsKver kver.now }
    ensures value { IfOk result (λ n. n ≡ vmlinuz_name kver.now) }
    ensures name { IfOk result IsName }
{
    let mut text = Bytes::from_slice(alloc, b"vmlinuz-")?;
    text.append(kver.as_slice())?;
    known_name(alloc, text.as_slice())
}

/// The name of what it first mounts: `initramfs-<version>.img`.
pub(crate) fn initramfs_name(alloc: Global, kver: &Name) -> Result<Name, NoMemory>
    requires { IsKver kver.now }
    ensures value { IfOk result (λ n. n ≡ initramfs_name kver.now) }
    ensures name { IfOk result IsName }
{
    let mut text = Bytes::from_slice(alloc, b"initramfs-")?;
    text.append(kver.as_slice())?;
    text.append(b".img")?;
    known_name(alloc, text.as_slice())
}

// the name that these bytes are known to be
fn known_name(alloc: Global, bytes: &[u8]) -> Result<Name, NoMemory>
    requires { IsName bytes.now }
    ensures value { IfOk result (λ n. n ≡ bytes.now) }
    ensures name { IfOk result IsName }
{
    match Name::parse(alloc, bytes)? {
        Some(name) => Ok(name),
        None => unreachable!(),
    }
}
