//! Why a tree isn't read.
ghost use Rattle.std.specs.Prelude.{◌≡◌};
ghost use Rattle.tree_read.specs.declared.fault.TreeFault.TheVariants as faults;

use fs_trait::FsErr;
use ost_types::{NoMemory, ObjName};

#[derive(Clone, Copy, Debug, PartialEq, Eq)]
pub enum TreeFault {
    /// Nothing stands at the object's path.
    Absent(ObjName),
    /// Something else stands there, or it names a path that is past the bounds.
    Damaged(ObjName),
    /// A call failed, or wanted for memory.
    Fs(FsErr),
    NoMemory,
}

impl From<FsErr> for TreeFault {
    ghost from_gives = { λ e f. f ≡ faults.Fs e };

    fn from(e: FsErr) -> TreeFault {
        TreeFault::Fs(e)
    }
}

impl From<NoMemory> for TreeFault {
    ghost from_gives = { λ _ f. f ≡ faults.NoMemory };

    fn from(_e: NoMemory) -> TreeFault {
        TreeFault::NoMemory
    }
}
