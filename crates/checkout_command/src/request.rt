//! What is checked out, and where.
ghost use Rattle.std.specs.Prelude.{◌≡◌, IfOk};
ghost use Rattle.repo_layout.specs.BootPaths.{checkout_path};
ghost use Rattle.commit_checkout.specs.TreeFolder.{HasRoomBelow};

use ost_types::{Csum, FsPath, Limits, Name, NoMemory, TryCopy};
use repo_layout::{Folder, folder_path};
use std::alloc::Global;

/// The tree of the commit, into the folder of the name.
#[derive(Drop, Debug)]
pub struct Request {
    pub(crate) alloc: Global,
    pub(crate) limits: Limits,
    pub(crate) commit: Csum,
    pub(crate) name: Name,
}

impl Request {
    /// Where the folder stands.
    pub(crate) fn path(&self) -> Result<FsPath, NoMemory>
        ensures path { IfOk result (λ p. p ≡ checkout_path self.now.name) }
        ensures room { IfOk result HasRoomBelow }
    {
        let _bytes = self.name.as_slice();
        folder_path(self.alloc, Folder::Checkouts)?.child(&self.name)
    }

    /// The most paths of the tree.
    pub(crate) fn paths(&self) -> u32
        ensures { result ≡ self.now.limits.paths }
    {
        self.limits.paths
    }

    pub(crate) fn copied(&self) -> Result<Request, NoMemory>
        ensures { IfOk result (λ r. r ≡ self.now) }
    {
        Ok(Request {
            alloc: self.alloc,
            limits: self.limits,
            commit: self.commit,
            name: self.name.copy()?,
        })
    }
}
