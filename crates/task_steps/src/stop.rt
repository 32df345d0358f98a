use fs_trait::FsErr;
use ost_types::NoMemory;
use std::alloc::{AllocError, AllocFailed};

/// Why some work couldn't be stepped.
#[derive(Clone, Copy, Debug)]
pub enum Stop {
    /// A call on the disk was refused.
    Disk(FsErr),
    /// What is to be done couldn't be made.
    Unmade,
    /// It took more steps than any work here needs.
    Endless,
    NoMemory,
}

impl From<NoMemory> for Stop {
    fn from(_: NoMemory) -> Stop {
        Stop::NoMemory
    }
}

impl From<AllocError> for Stop {
    fn from(_: AllocError) -> Stop {
        Stop::NoMemory
    }
}

impl<T: Drop> From<AllocFailed<T>> for Stop {
    fn from(_: AllocFailed<T>) -> Stop {
        Stop::NoMemory
    }
}

impl From<FsErr> for Stop {
    fn from(fault: FsErr) -> Stop {
        match fault {
            FsErr::NoMemory => Stop::NoMemory,
            other => Stop::Disk(other),
        }
    }
}
