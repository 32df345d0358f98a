//! Why a script couldn't be run to its end, or what is wrong.
use fs_trait::FsErr;
use ost_types::NoMemory;
use std::alloc::{AllocError, AllocFailed};

/// Why a script couldn't be run, or what is wrong.
#[derive(Drop)]
pub enum Stop {
    /// What is wrong, in words.
    Wrong(String),
    /// A look was refused.
    Refused(FsErr),
    NoMemory,
}

impl From<NoMemory> for Stop {
    fn from(_: NoMemory) -> Stop {
        Stop::NoMemory
    }
}

impl From<AllocError> for Stop {
    fn from(_: AllocError) -> Stop {
        Stop::NoMemory
    }
}

impl<T: Drop> From<AllocFailed<T>> for Stop {
    fn from(_: AllocFailed<T>) -> Stop {
        Stop::NoMemory
    }
}

impl From<FsErr> for Stop {
    fn from(fault: FsErr) -> Stop {
        match fault {
            FsErr::NoMemory => Stop::NoMemory,
            other => Stop::Refused(other),
        }
    }
}
