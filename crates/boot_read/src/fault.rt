ghost use Rattle.std.specs.Prelude.{◌≡◌};
ghost use Rattle.boot_read.specs.declared.fault.ListFault.TheVariants as variant;

use bls_entry::BlsFault;
use fs_trait::FsErr;
use ost_types::{FsPath, NoMemory};
use std::alloc::{AllocError, AllocFailed};
use thiserror::Error;

/// Why a file is no boot entry of a deployment.
#[derive(Clone, Copy, Debug, PartialEq, Eq, Error)]
pub enum EntryFault {
    /// It has more than `ENTRY_LIMIT` bytes.
    #[error("the boot entry is too long")]
    TooLong,
    /// Its text isn't one.
    #[error("the boot entry can't be read")]
    Unread(BlsFault),
}

/// What is first wrong with the list of deployments of a disk.
#[derive(Drop, Debug, Error)]
pub enum ListFault {
    /// What stands there isn't the link that has to be there.
    #[error("there is no link of the form that boots")]
    BadLink(FsPath),
    /// The folder has more than eight entries.
    #[error("there are more than eight boot entries")]
    TooMany(FsPath),
    /// The file is no boot entry.
    #[error("the boot entry can't be read")]
    BadEntry(FsPath, EntryFault),
    /// The entry leads to no deployment of its own.
    #[error("the boot entry leads to no deployment of its own")]
    NoDeployment(FsPath),
    /// A call of the file system failed, or wanted memory.
    #[error("a call of the file system failed")]
    Fs(FsErr),
    /// Memory was wanted beside the calls, and there was none.
    #[error("memory was wanted and there was none")]
    NoMemory,
}

impl From<NoMemory> for ListFault {
    ghost from_gives = { λ _ e. e ≡ variant.NoMemory };

    fn from(_: NoMemory) -> ListFault {
        ListFault::NoMemory
    }
}

impl From<AllocError> for ListFault {
    ghost from_gives = { λ _ e. e ≡ variant.NoMemory };

    fn from(_: AllocError) -> ListFault {
        ListFault::NoMemory
    }
}

impl<T: Drop> From<AllocFailed<T>> for ListFault {
    ghost from_gives = { λ _ e. e ≡ variant.NoMemory };

    fn from(_: AllocFailed<T>) -> ListFault {
        ListFault::NoMemory
    }
}

impl From<FsErr> for ListFault {
    ghost from_gives = { λ e f. f ≡ variant.Fs e };

    fn from(error: FsErr) -> ListFault {
        ListFault::Fs(error)
    }
}
