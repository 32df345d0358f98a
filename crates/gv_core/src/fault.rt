//! Why a type string or bytes are refused.

ghost use Rattle.std.specs.Prelude.{◌≡◌};
ghost use Rattle.gv_core.specs.declared.fault.GvFault.TheVariants.{NoMemory};

use std::alloc::{AllocError, AllocFailed};
use thiserror::Error;

#[derive(Clone, Copy, Debug, PartialEq, Eq, Error)]
pub enum GvFault {
    #[error("not one complete type string")]
    BadKind,
    #[error("containers nest more than 64 deep")]
    TooDeep,
    #[error("not the normal form of a value")]
    NotNormal,
    #[error("out of memory")]
    NoMemory,
}

/// A request for memory was refused.
#[derive(Clone, Copy, Debug, PartialEq, Eq, Error)]
#[error("out of memory")]
pub struct GvNoMemory;

impl From<AllocError> for GvNoMemory {
    fn from(_e: AllocError) -> GvNoMemory {
        GvNoMemory
    }
}

impl<T: Drop> From<AllocFailed<T>> for GvNoMemory {
    fn from(_e: AllocFailed<T>) -> GvNoMemory {
        GvNoMemory
    }
}

impl From<GvNoMemory> for GvFault {
    ghost from_gives = { λ _ e. e ≡ NoMemory };

    fn from(_e: GvNoMemory) -> GvFault {
        GvFault::NoMemory
    }
}

impl From<AllocError> for GvFault {
    ghost from_gives = { λ _ e. e ≡ NoMemory };

    fn from(_e: AllocError) -> GvFault {
        GvFault::NoMemory
    }
}

impl<T: Drop> From<AllocFailed<T>> for GvFault {
    ghost from_gives = { λ _ e. e ≡ NoMemory };

    fn from(_e: AllocFailed<T>) -> GvFault {
        GvFault::NoMemory
    }
}
