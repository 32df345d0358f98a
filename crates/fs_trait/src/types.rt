ghost use Rattle.std.specs.Prelude.{◌≡◌, IfOk};

use ost_types::{Meta, NoMemory, Text, TryCopy};
use std::alloc::{AllocError, AllocFailed};

/// Why a call wasn't done.
#[derive(Clone, Copy, Debug, PartialEq, Eq)]
pub enum FsErr {
    /// The call failed, and the count of faults rose.
    Failed,
    /// Something is there already, or a folder stands in the way.
    Exists,
    /// What the call is about isn't there.
    Missing,
    /// A leaf stands in a folder's place.
    NotFolder,
    /// The folder has names.
    NotEmpty,
    /// There was no memory for the call.
    NoMemory,
}

impl From<AllocError> for FsErr {
    ghost use Rattle.std.specs.Prelude.{◌≡◌};
    ghost use Rattle.fs_trait.specs.declared.types.FsErr.TheVariants.{NoMemory};

    ghost from_gives = { λ _ e. e ≡ NoMemory };

    fn from(_: AllocError) -> FsErr {
        FsErr::NoMemory
    }
}

impl<T: Drop> From<AllocFailed<T>> for FsErr {
    ghost use Rattle.std.specs.Prelude.{◌≡◌};
    ghost use Rattle.fs_trait.specs.declared.types.FsErr.TheVariants.{NoMemory};

    ghost from_gives = { λ _ e. e ≡ NoMemory };

    fn from(_: AllocFailed<T>) -> FsErr {
        FsErr::NoMemory
    }
}

impl From<NoMemory> for FsErr {
    ghost use Rattle.std.specs.Prelude.{◌≡◌};
    ghost use Rattle.fs_trait.specs.declared.types.FsErr.TheVariants as variant;

    ghost from_gives = { λ _ e. e ≡ variant.NoMemory };

    fn from(_: NoMemory) -> FsErr {
        FsErr::NoMemory
    }
}

/// What stands at a path. A regular file is named by the number of its inode.
#[derive(Drop, Debug)]
pub enum Value {
    Absent,
    Folder(Meta),
    Link(Meta, Text),
    File(u64),
}

impl TryCopy for Value {
    fn copy(&self) -> Result<Value, NoMemory> {
        Ok(match self {
            Value::Absent => Value::Absent,
            Value::Folder(meta) => Value::Folder(meta.copy()?),
            Value::Link(meta, target) => Value::Link(meta.copy()?, target.copy()?),
            Value::File(inode) => Value::File(*inode),
        })
    }
}

/// What `stat` tells of a path.
#[derive(Drop, Debug)]
pub enum Node {
    Folder(Meta),
    File {
        meta: Meta,
        /// The number of its bytes.
        len: u64,
    },
    Link {
        meta: Meta,
        target: Text,
    },
}
