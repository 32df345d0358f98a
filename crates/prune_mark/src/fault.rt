//! Why what is reachable isn't found.
ghost use Rattle.std.specs.Prelude.{◌≡◌};
ghost use Rattle.prune_mark.specs.declared.fault.MarkFault.TheVariants as faults;

use fs_trait::FsErr;
use ost_types::{NoMemory, ObjName};

#[derive(Clone, Copy, Debug, PartialEq, Eq)]
pub enum MarkFault {
    /// Nothing stands at the path of an object that was listed.
    Absent(ObjName),
    /// Something else stands there, or it doesn't read as its kind.
    Damaged(ObjName),
    /// A call failed, or wanted for memory.
    Fs(FsErr),
    NoMemory,
}

impl From<NoMemory> for MarkFault {
    ghost from_gives = { λ _ f. f ≡ faults.NoMemory };

    fn from(_e: NoMemory) -> MarkFault {
        MarkFault::NoMemory
    }
}
