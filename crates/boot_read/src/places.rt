//! Where the entries and links stand.
ghost use Rattle.std.specs.Prelude.{◌≡◌, ◌<◌, ◌^◌, IfOk};
ghost use Rattle.std.specs.Fmt.{decimal};
ghost use Rattle.ost_types.specs.Csum.{hex_of};
ghost use Rattle.ost_types.specs.Text.{IsName};
ghost use Rattle.repo_layout.specs.BootPaths.{entry_path, loader_path};
ghost use Rattle.repo_layout.specs.Fixed.{number as numbered};
ghost use Rattle.boot_read.specs.Links.{item_link};

use ost_types::{Csum, FsPath, Name, NoMemory};
use repo_layout::{Fixed, Folder, OsName, Version, fixed_path, folder_path};
use std::alloc::Global;

/// The boot loader's link: `/boot/loader`.
pub(crate) fn loader_path(alloc: Global) -> Result<FsPath, NoMemory>
    ensures { IfOk result (λ p. p ≡ loader_path) }
{
    folder_path(alloc, Folder::Boot)?.child(&known_name(alloc, b"loader")?)
}

/// Where an entry of the version stands.
pub(crate) fn entry_at(alloc: Global, loader: Version, file: &Name) -> Result<FsPath, NoMemory>
    ensures { IfOk result (λ p. p ≡ entry_path (numbered loader) file.now) }
{
    // known by this: a name may stand in the folder
    let _file = file.as_slice();
    fixed_path(alloc, Fixed::Entries(loader))?.child(file)
}

/// Where a link to a deployment stands.
pub(crate) fn item_link(
    alloc: Global,
    loader: Version,
    sub: Version,
    os: &OsName,
    bootcsum: &Csum,
    number: u32,
) -> Result<FsPath, NoMemory>
    ensures { IfOk result (λ p. p ≡ item_link (numbered loader) (numbered sub) os.now bootcsum.now number) }
{
    let folder = fixed_path(alloc, Fixed::BootFolder(loader, sub))?;
    let links = folder.child(&os_name(alloc, os)?)?;
    let kernel = links.child(&sum_name(alloc, bootcsum)?)?;
    kernel.child(&number_name(alloc, number)?)
}

fn os_name(alloc: Global, os: &OsName) -> Result<Name, NoMemory>
    ensures value { IfOk result (λ n. n ≡ os.now) }
    ensures name { IfOk result IsName }
{
    known_name(alloc, os.as_slice())
}

fn sum_name(alloc: Global, sum: &Csum) -> Result<Name, NoMemory>
    ensures value { IfOk result (λ n. n ≡ hex_of sum.now) }
    ensures name { IfOk result IsName }
{
    known_name(alloc, &sum.to_hex())
}

fn number_name(alloc: Global, number: u32) -> Result<Name, NoMemory>
    ensures value { IfOk result (λ n. n ≡ decimal number) }
    ensures name { IfOk result IsName }
{
    known_name(alloc, number.to_string(alloc)?.as_bytes())
}

// the name that these bytes are known to be
fn known_name(alloc: Global, bytes: &[u8]) -> Result<Name, NoMemory>
    requires { IsName bytes.now }
    ensures { IfOk result (λ n. n ≡ bytes.now) }
{
    match Name::parse(alloc, bytes)? {
        Some(name) => Ok(name),
        None => unreachable!(),
    }
}
