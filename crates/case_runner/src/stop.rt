use fs_trait::FsErr;
use ost_types::{Bytes, NoMemory};
use std::alloc::{AllocError, AllocFailed};

/// Why a case isn't as expected, or couldn't be run.
#[derive(Drop)]
pub enum Stop {
    /// What differs, in lines.
    Differs(Bytes),
    /// The book has no text or disk with this name.
    Unknown(Bytes),
    /// A call on the disk that isn't the program's was refused.
    Disk(FsErr),
    /// A node's mode isn't one of its type, or a link has no target.
    Mode,
    NoMemory,
}

impl From<NoMemory> for Stop {
    fn from(_: NoMemory) -> Stop {
        Stop::NoMemory
    }
}

impl From<AllocError> for Stop {
    fn from(_: AllocError) -> Stop {
        Stop::NoMemory
    }
}

impl<T: Drop> From<AllocFailed<T>> for Stop {
    fn from(_: AllocFailed<T>) -> Stop {
        Stop::NoMemory
    }
}

impl From<FsErr> for Stop {
    fn from(fault: FsErr) -> Stop {
        match fault {
            FsErr::NoMemory => Stop::NoMemory,
            other => Stop::Disk(other),
        }
    }
}
