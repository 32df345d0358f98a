//! Why a call isn't done, before that is counted.
use fs_trait::FsErr;
use std::io;

/// The machine failed, or shows something that stands for no node.
#[derive(Clone, Copy, Debug, PartialEq, Eq)]
pub struct Fault;

/// Why a call isn't done. None of these lacks memory.
#[derive(Clone, Copy, Debug, PartialEq, Eq)]
pub enum Refusal {
    /// The machine failed, or shows something that stands for no node.
    Failed,
    /// Something is there already, or a folder stands in the way.
    Exists,
    /// What the call is about isn't there.
    Missing,
    /// A leaf stands in a folder's place.
    NotFolder,
    /// The folder has names.
    NotEmpty,
}

impl From<io::Error> for Fault {
    fn from(_: io::Error) -> Fault {
        Fault
    }
}

impl From<io::Error> for Refusal {
    ghost use Rattle.std.specs.Prelude.{◌≡◌};
    ghost use Rattle.host_files.specs.declared.refusal.Refusal.TheVariants.{Failed};

    ghost from_gives = { λ _ refusal. refusal ≡ Failed };

    fn from(_: io::Error) -> Refusal {
        Refusal::Failed
    }
}

impl From<Fault> for Refusal {
    ghost use Rattle.std.specs.Prelude.{◌≡◌};
    ghost use Rattle.host_files.specs.declared.refusal.Refusal.TheVariants.{Failed};

    ghost from_gives = { λ _ refusal. refusal ≡ Failed };

    fn from(_: Fault) -> Refusal {
        Refusal::Failed
    }
}

impl From<Fault> for FsErr {
    ghost use Rattle.std.specs.Prelude.{◌≡◌};
    ghost use Rattle.fs_trait.specs.declared.types.FsErr.TheVariants.{Failed};

    ghost from_gives = { λ _ e. e ≡ Failed };

    fn from(_: Fault) -> FsErr {
        FsErr::Failed
    }
}

impl From<Refusal> for FsErr {
    ghost use Rattle.std.specs.Prelude.{◌≡◌};
    ghost use Rattle.host_files.specs.Refusal.{answer};

    ghost from_gives = { λ refusal e. e ≡ answer refusal };

    fn from(refusal: Refusal) -> FsErr {
        match refusal {
            Refusal::Failed => FsErr::Failed,
            Refusal::Exists => FsErr::Exists,
            Refusal::Missing => FsErr::Missing,
            Refusal::NotFolder => FsErr::NotFolder,
            Refusal::NotEmpty => FsErr::NotEmpty,
        }
    }
}
