use ost_types::NoMemory;
use thiserror::Error;

/// Why a text is no script.
#[derive(Clone, Copy, Debug, PartialEq, Eq, Error)]
pub enum ScriptFault {
    /// The line with this number, counted from 1, isn't of the form that its place asks.
    #[error("a line of the script isn't in the grammar")]
    BadLine(u32),
    /// It has more than 4,194,304 bytes.
    #[error("the script is longer than 4,194,304 bytes")]
    TooLong,
    /// It has more than 8 lanes.
    #[error("the script has more than 8 lanes")]
    TooManyLanes,
    /// A lane has more than 64 commands.
    #[error("a lane of the script has more than 64 commands")]
    TooManyCommands,
    /// A commit is of the tree with this number, and no tree before it has it.
    #[error("a tree that the script commits isn't in it")]
    UnknownTree(u32),
    /// Memory was wanted and there was none.
    #[error("memory was wanted and there was none")]
    NoMemory,
}

impl From<NoMemory> for ScriptFault {
    ghost use Rattle.std.specs.Prelude.{◌≡◌};
    ghost use Rattle.script.specs.declared.fault.ScriptFault.TheVariants as variant;

    ghost from_gives = { λ _ e. e ≡ variant.NoMemory };

    fn from(_: NoMemory) -> ScriptFault {
        ScriptFault::NoMemory
    }
}
