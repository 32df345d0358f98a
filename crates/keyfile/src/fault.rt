use ost_types::NoMemory;
use thiserror::Error;

/// Why a text is no keyfile: the first line that may not stand there, counted from 1, and what is wrong with it.
#[derive(Clone, Copy, Debug, PartialEq, Eq, Error)]
pub enum KeyFault {
    /// A key stands before any group.
    #[error("a key of the keyfile stands before any group")]
    NoGroup(u64),
    /// The line is no group, no key, no comment and not empty, or has no newline behind it.
    #[error("a line of the keyfile isn't in the format")]
    BadLine(u64),
    /// There was such a group before, or such a key in its group.
    #[error("a group or a key of the keyfile stands there twice")]
    Repeated(u64),
    /// Memory was wanted and there was none.
    #[error("memory was wanted and there was none")]
    NoMemory,
}

impl From<NoMemory> for KeyFault {
    ghost use Rattle.std.specs.Prelude.{◌≡◌};
    ghost use Rattle.keyfile.specs.declared.fault.KeyFault.TheVariants as variant;

    ghost from_gives = { λ _ e. e ≡ variant.NoMemory };

    fn from(_: NoMemory) -> KeyFault {
        KeyFault::NoMemory
    }
}
