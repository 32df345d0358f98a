//! Why bytes are no object.

ghost use Rattle.std.specs.Prelude.{◌≡◌};
ghost use Rattle.ost_forms.specs.declared.fault.ObjFault.TheVariants.{NoMemory as OutOfMemory};

use ost_types::NoMemory;
use std::alloc::{AllocError, AllocFailed};

/// What is wrong with bytes that are read as an object. Of several the first in this order is told: `TooLarge`,
/// `NotNormal`, `BadSumLength`, `BadName`, `NotSorted`, `BadMode`.
#[derive(Clone, Copy, Debug, PartialEq, Eq)]
pub enum ObjFault {
    /// The bytes aren't the GVariant normal form of the object's type, or a content stream has no header that fits.
    NotNormal,
    /// A sum hasn't 32 bytes.
    BadSumLength,
    /// The name of a file or a folder isn't one.
    BadName,
    /// The names of a list don't ascend, or one is in both lists.
    NotSorted,
    /// The mode is no mode of such an object, or the rest of a content stream doesn't fit its mode.
    BadMode,
    /// More bytes than the limit, and how many.
    TooLarge(u64),
    NoMemory,
}

impl From<NoMemory> for ObjFault {
    ghost from_gives = { λ _ e. e ≡ OutOfMemory };

    fn from(_e: NoMemory) -> ObjFault {
        ObjFault::NoMemory
    }
}

impl From<AllocError> for ObjFault {
    ghost from_gives = { λ _ e. e ≡ OutOfMemory };

    fn from(_e: AllocError) -> ObjFault {
        ObjFault::NoMemory
    }
}

impl<T: Drop> From<AllocFailed<T>> for ObjFault {
    ghost from_gives = { λ _ e. e ≡ OutOfMemory };

    fn from(_e: AllocFailed<T>) -> ObjFault {
        ObjFault::NoMemory
    }
}
