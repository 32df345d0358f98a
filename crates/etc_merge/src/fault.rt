ghost use Rattle.std.specs.Prelude.{◌≡◌};
ghost use Rattle.etc_merge.specs.declared.fault.MergeFault.TheVariants as fault;

use ost_types::{FsPath, NoMemory, TryCopy};
use thiserror::Error;

/// Why there is no merge.
#[derive(Drop, Debug, Error)]
pub enum MergeFault {
    /// What was changed at the path and what the new tree has there can't both be: one is a folder and the other a leaf. No path
    /// before it conflicts.
    #[error("what was changed in /etc and the new defaults conflict")]
    EtcConflict(FsPath),
    #[error("there is no memory for the merge")]
    NoMemory,
}

impl From<NoMemory> for MergeFault {
    ghost from_gives = { λ _ given. given ≡ fault.NoMemory };

    fn from(_: NoMemory) -> MergeFault {
        MergeFault::NoMemory
    }
}

impl TryCopy for MergeFault {
    fn copy(&self) -> Result<MergeFault, NoMemory> {
        match self {
            MergeFault::EtcConflict(path) => Ok(MergeFault::EtcConflict(path.copy()?)),
            MergeFault::NoMemory => Ok(MergeFault::NoMemory),
        }
    }
}
