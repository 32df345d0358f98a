//! The links that select what boots: where they stand, where they are staged, and their targets.
ghost use Rattle.std.specs.Prelude.{◌≡◌, ◌≢◌, [], IfOk};
ghost use Rattle.repo_layout.specs.BootPaths.{boot_link_stage_path, loader_path, loader_stage_path};
ghost use Rattle.repo_layout.specs.Fixed.{number};
ghost use Rattle.boot_model.specs.Entries.{boot_target, loader_target};

use crate::names::{known_name, known_text};
use boot_model::{boot_target, loader_target};
use ost_types::{FsPath, NoMemory, Text};
use repo_layout::{Folder, Version, folder_path};
use std::alloc::Global;

/// The boot loader's link: `/boot/loader`.
pub fn loader_path(alloc: Global) -> Result<FsPath, NoMemory>
    ensures { IfOk result (λ p. p ≡ loader_path) }
{
    folder_path(alloc, Folder::Boot)?.child(&known_name(alloc, b"loader")?)
}

/// Where it is staged: `/boot/loader.tmp`.
pub fn loader_stage_path(alloc: Global) -> Result<FsPath, NoMemory>
    ensures { IfOk result (λ p. p ≡ loader_stage_path) }
{
    folder_path(alloc, Folder::Boot)?.child(&known_name(alloc, b"loader.tmp")?)
}

/// Where the link of a version is staged: `/ostree/boot.tmp`.
pub fn boot_link_stage_path(alloc: Global) -> Result<FsPath, NoMemory>
    ensures { IfOk result (λ p. p ≡ boot_link_stage_path) }
{
    folder_path(alloc, Folder::Ostree)?.child(&known_name(alloc, b"boot.tmp")?)
}

/// What the boot loader's link holds that selects a version.
pub fn loader_text(alloc: Global, version: Version) -> Result<Text, NoMemory>
    ensures { IfOk result (λ t. t ≡ loader_target (number version)) }
{
    known_text(alloc, loader_target(version))
}

/// What the link of a version holds that names a sub-version.
pub fn boot_text(alloc: Global, version: Version, sub: Version) -> Result<Text, NoMemory>
    ensures { IfOk result (λ t. t ≡ boot_target (number version) (number sub)) }
{
    known_text(alloc, boot_target(version, sub))
}
