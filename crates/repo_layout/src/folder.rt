ghost use Rattle.std.specs.Prelude.{◌≡◌, IfOk};
ghost use Rattle.ost_types.specs.Path.{text_of};
ghost use Rattle.repo_layout.specs.Paths.{folder_path};

use crate::known::known_path;
use ost_types::{FsPath, NoMemory};
use std::alloc::Global;

/// A folder that a repository and its sysroot have from the beginning. Each stands before those that lie in it.
#[derive(Clone, Copy, Debug, PartialEq, Eq, PartialOrd, Ord)]
pub enum Folder {
    /// `/ostree`
    Ostree,
    /// `/ostree/repo`
    Repo,
    /// `/ostree/repo/objects`
    Objects,
    /// `/ostree/repo/refs`
    Refs,
    /// `/ostree/repo/refs/heads`
    Heads,
    /// `/ostree/repo/state`
    State,
    /// `/ostree/repo/tmp`
    Tmp,
    /// `/ostree/deploy`, the stateroots
    Deploy,
    /// `/boot`
    Boot,
    /// `/boot/ostree`, the copies of kernels
    Kernels,
    /// `/checkout`, the trees that are checked out
    Checkouts,
}

/// Where the folder stands.
pub fn folder_path(alloc: Global, folder: Folder) -> Result<FsPath, NoMemory>
    ensures { IfOk result (λ p. p ≡ folder_path folder) }
{
    known_path(alloc, folder_text(folder))
}

fn folder_text(folder: Folder) -> &'static [u8]
    ensures { result.now ≡ text_of (folder_path folder) }
{
    match folder {
        Folder::Ostree => b"/ostree",
        Folder::Repo => b"/ostree/repo",
        Folder::Objects => b"/ostree/repo/objects",
        Folder::Refs => b"/ostree/repo/refs",
        Folder::Heads => b"/ostree/repo/refs/heads",
        Folder::State => b"/ostree/repo/state",
        Folder::Tmp => b"/ostree/repo/tmp",
        Folder::Deploy => b"/ostree/deploy",
        Folder::Boot => b"/boot",
        Folder::Kernels => b"/boot/ostree",
        Folder::Checkouts => b"/checkout",
    }
}
