//! Why bytes are no checked object.

ghost use Rattle.std.specs.Prelude.{◌≡◌};
ghost use Rattle.ost_objects.specs.declared.fault.MakeFault.TheVariants.{NoMemory as OutOfMemory};

use ost_forms::ObjFault;
use ost_types::{Csum, NoMemory};

/// What is wrong with bytes that are to have a name.
#[derive(Clone, Copy, Debug, PartialEq, Eq)]
pub enum CheckFault {
    /// They have another sum, which is this.
    WrongSum(Csum),
    /// They have the sum, and don't read as an object of the kind.
    Unreadable(ObjFault),
    NoMemory,
}

/// Why there is no object of a value.
#[derive(Clone, Copy, Debug, PartialEq, Eq)]
pub enum MakeFault {
    /// A part of its bytes, or all of them, are more than the limit, and how many.
    TooLarge(u64),
    NoMemory,
}

impl From<NoMemory> for MakeFault {
    ghost from_gives = { λ _ e. e ≡ OutOfMemory };

    fn from(_e: NoMemory) -> MakeFault {
        MakeFault::NoMemory
    }
}
