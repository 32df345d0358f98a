//! Why the objects of a repository, or its commits, don't pass.
ghost use Rattle.std.specs.Prelude.{◌≡◌};
ghost use Rattle.store_check.specs.declared.fault.ObjectsFault.TheVariants as objects;
ghost use Rattle.store_check.specs.declared.fault.CommitsFault.TheVariants as commits;

use fs_trait::FsErr;
use ost_objects::CheckFault;
use ost_types::{FsPath, NoMemory, ObjName};
use std::alloc::AllocError;

#[derive(Clone, Copy, Debug, PartialEq, Eq)]
pub enum ObjectsFault {
    /// There are more objects than the limit, which is one less than this.
    TooMany(u64),
    /// What stands at the object's path doesn't have the name, or doesn't read as the kind. `CheckFault::NoMemory` never stands here.
    Damaged(ObjName, CheckFault),
    /// A call failed or wanted for memory.
    Fs(FsErr),
    NoMemory,
}

impl From<FsErr> for ObjectsFault {
    ghost from_gives = { λ e f. f ≡ objects.Fs e };

    fn from(e: FsErr) -> ObjectsFault {
        ObjectsFault::Fs(e)
    }
}

impl From<NoMemory> for ObjectsFault {
    ghost from_gives = { λ _ f. f ≡ objects.NoMemory };

    fn from(_e: NoMemory) -> ObjectsFault {
        ObjectsFault::NoMemory
    }
}

impl From<AllocError> for ObjectsFault {
    ghost from_gives = { λ _ f. f ≡ objects.NoMemory };

    fn from(_e: AllocError) -> ObjectsFault {
        ObjectsFault::NoMemory
    }
}

#[derive(Drop, Debug)]
pub enum CommitsFault {
    /// An object is missing or damaged, or names a path that is past the limits: of the commit whose object has this path, or
    /// of the ref whose file has it. Of a ref it is the commit that the ref names.
    Incomplete(FsPath, ObjName),
    /// A call failed or wanted for memory.
    Fs(FsErr),
    NoMemory,
}

impl From<FsErr> for CommitsFault {
    ghost from_gives = { λ e f. f ≡ commits.Fs e };

    fn from(e: FsErr) -> CommitsFault {
        CommitsFault::Fs(e)
    }
}

impl From<NoMemory> for CommitsFault {
    ghost from_gives = { λ _ f. f ≡ commits.NoMemory };

    fn from(_e: NoMemory) -> CommitsFault {
        CommitsFault::NoMemory
    }
}
