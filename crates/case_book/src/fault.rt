use ost_types::NoMemory;
use std::alloc::{AllocError, AllocFailed};

/// Why a text is no book of cases.
#[derive(Clone, Copy, Debug, PartialEq, Eq)]
pub enum BookFault {
    /// The line with this number, from 1, can't stand where it stands.
    BadLine(u32),
    NoMemory,
}

/// Why a line isn't taken.
#[derive(Clone, Copy, Debug, PartialEq, Eq)]
pub(crate) enum LineFault {
    Bad,
    NoMemory,
}

impl LineFault {
    /// The same of the line with this number.
    pub fn at(self, line: u32) -> BookFault {
        match self {
            LineFault::Bad => BookFault::BadLine(line),
            LineFault::NoMemory => BookFault::NoMemory,
        }
    }
}

impl From<NoMemory> for LineFault {
    fn from(_: NoMemory) -> LineFault {
        LineFault::NoMemory
    }
}

impl From<AllocError> for LineFault {
    fn from(_: AllocError) -> LineFault {
        LineFault::NoMemory
    }
}

impl<T: Drop> From<AllocFailed<T>> for LineFault {
    fn from(_: AllocFailed<T>) -> LineFault {
        LineFault::NoMemory
    }
}
