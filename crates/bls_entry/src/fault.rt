use ost_types::NoMemory;
use thiserror::Error;

/// Why a text is no boot entry of a deployment.
#[derive(Clone, Copy, Debug, PartialEq, Eq, Error)]
pub enum BlsFault {
    /// The first line, counted from 1, that isn't in the format, repeats a key of which there may be one, or has no newline
    /// behind it.
    #[error("a line of the boot entry isn't in the format")]
    BadLine(u64),
    /// There is no line with the key `options`.
    #[error("the boot entry has no options")]
    NoOptions,
    /// None of the options' words begins `ostree=`, or several do.
    #[error("the boot entry's options don't name one deployment")]
    NoOstree,
    /// Memory was wanted and there was none.
    #[error("memory was wanted and there was none")]
    NoMemory,
}

impl From<NoMemory> for BlsFault {
    ghost use Rattle.std.specs.Prelude.{◌≡◌};
    ghost use Rattle.bls_entry.specs.declared.fault.BlsFault.TheVariants as variant;

    ghost from_gives = { λ _ e. e ≡ variant.NoMemory };

    fn from(_: NoMemory) -> BlsFault {
        BlsFault::NoMemory
    }
}
