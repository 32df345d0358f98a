ghost use Rattle.std.specs.Prelude.{◌≡◌, IfOk};
ghost use Rattle.ost_types.specs.Path.{text_of};
ghost use Rattle.repo_layout.specs.BootPaths.{boot_folder_path, boot_link_path, loader_folder_path};
ghost use Rattle.repo_layout.specs.Fixed.{entries_path, fixed_path, number};

use crate::known::known_path;
use ost_types::{FsPath, NoMemory};
use std::alloc::Global;

/// Which of two: what boots next is made as the other one, and then takes its place.
#[derive(Clone, Copy, Debug, PartialEq, Eq)]
pub enum Version {
    Zero,
    One,
}

/// A thing of a sysroot or its repository that has one path, and isn't there from the beginning.
#[derive(Clone, Copy, Debug, PartialEq, Eq)]
pub enum Fixed {
    /// `/boot/loader.<version>`
    LoaderFolder(Version),
    /// `/boot/loader.<version>/entries`
    Entries(Version),
    /// `/ostree/boot.<version>`
    BootLink(Version),
    /// `/ostree/boot.<version>.<sub-version>`
    BootFolder(Version, Version),
    /// `/ostree/repo/summary`
    Summary,
}

/// Where it stands.
pub fn fixed_path(alloc: Global, fixed: Fixed) -> Result<FsPath, NoMemory>
    ensures { IfOk result (λ p. p ≡ fixed_path fixed) }
{
    known_path(alloc, fixed_text(fixed))
}

fn fixed_text(fixed: Fixed) -> &'static [u8]
    ensures { result.now ≡ text_of (fixed_path fixed) }
{
    match fixed {
        Fixed::LoaderFolder(version) => loader_folder_text(version),
        Fixed::Entries(version) => entries_text(version),
        Fixed::BootLink(version) => boot_link_text(version),
        Fixed::BootFolder(version, sub) => boot_folder_text(version, sub),
        Fixed::Summary => b"/ostree/repo/summary",
    }
}

fn loader_folder_text(version: Version) -> &'static [u8]
    ensures { result.now ≡ text_of (loader_folder_path (number version)) }
{
    match version {
        Version::Zero => b"/boot/loader.0",
        Version::One => b"/boot/loader.1",
    }
}

fn entries_text(version: Version) -> &'static [u8]
    ensures { result.now ≡ text_of (entries_path (number version)) }
{
    match version {
        Version::Zero => b"/boot/loader.0/entries",
        Version::One => b"/boot/loader.1/entries",
    }
}

fn boot_link_text(version: Version) -> &'static [u8]
    ensures { result.now ≡ text_of (boot_link_path (number version)) }
{
    match version {
        Version::Zero => b"/ostree/boot.0",
        Version::One => b"/ostree/boot.1",
    }
}

fn boot_folder_text(version: Version, sub: Version) -> &'static [u8]
    ensures { result.now ≡ text_of (boot_folder_path (number version) (number sub)) }
{
    match version {
        Version::Zero => first_boot_folder_text(sub),
        Version::One => second_boot_folder_text(sub),
    }
}

fn first_boot_folder_text(sub: Version) -> &'static [u8]
    ensures { result.now ≡ text_of (boot_folder_path 0 (number sub)) }
{
    match sub {
        Version::Zero => b"/ostree/boot.0.0",
        Version::One => b"/ostree/boot.0.1",
    }
}

fn second_boot_folder_text(sub: Version) -> &'static [u8]
    ensures { result.now ≡ text_of (boot_folder_path 1 (number sub)) }
{
    match sub {
        Version::Zero => b"/ostree/boot.1.0",
        Version::One => b"/ostree/boot.1.1",
    }
}
