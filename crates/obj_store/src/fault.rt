//! Why an object isn't loaded.

ghost use Rattle.std.specs.Prelude.{◌≡◌};
ghost use Rattle.obj_store.specs.declared.fault.LoadFault.TheVariants as faults;

use fs_trait::FsErr;
use ost_objects::CheckFault;
use ost_types::NoMemory;

#[derive(Clone, Copy, Debug, PartialEq, Eq)]
pub enum LoadFault {
    /// A call failed or wanted for memory.
    Fs(FsErr),
    /// What stands there doesn't have the name, or doesn't read as the kind. `CheckFault::NoMemory` never stands here.
    Damaged(CheckFault),
    NoMemory,
}

impl From<FsErr> for LoadFault {
    ghost from_gives = { λ e f. f ≡ faults.Fs e };

    fn from(e: FsErr) -> LoadFault {
        LoadFault::Fs(e)
    }
}

impl From<NoMemory> for LoadFault {
    ghost from_gives = { λ _ f. f ≡ faults.NoMemory };

    fn from(_e: NoMemory) -> LoadFault {
        LoadFault::NoMemory
    }
}
