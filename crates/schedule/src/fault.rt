use ost_types::NoMemory;
use thiserror::Error;

/// Why a text isn't read as a schedule.
#[derive(Clone, Copy, Debug, PartialEq, Eq, Error)]
pub enum ScheduleFault {
    /// The text isn't in the grammar.
    #[error("a schedule is actors from 0 to 15, each alone or with `*` and a count from 1 to 100,000, joined by `,`")]
    Malformed,
    /// Memory was wanted and there was none.
    #[error("memory was wanted and there was none")]
    NoMemory,
}

impl From<NoMemory> for ScheduleFault {
    ghost use Rattle.std.specs.Prelude.{◌≡◌};
    ghost use Rattle.schedule.specs.declared.fault.ScheduleFault.TheVariants as variant;

    ghost from_gives = { λ _ e. e ≡ variant.NoMemory };

    fn from(_: NoMemory) -> ScheduleFault {
        ScheduleFault::NoMemory
    }
}
