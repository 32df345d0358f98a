//! What follows a step of one of the tasks.
ghost use Rattle.std.specs.Prelude.{◌≡◌};
ghost use Rattle.deployment_build.specs.Work.{goes, goes_turn, puts, puts_turn};

use crate::phase::BuildPhase;
use checkout::DestExists;
use fs_trait::StepResult;

/// The phase behind a step that may be refused, of this one that the next one follows.
pub(crate) fn goes(
    this: BuildPhase,
    next: BuildPhase,
    inner: &StepResult<Result<(), DestExists>>,
) -> BuildPhase
    ensures { result ≡ goes this next inner.now }
{
    match inner {
        StepResult::More => this,
        StepResult::Done(Ok(())) => next,
        StepResult::Done(Err(_)) => BuildPhase::Refused,
    }
}

/// What such a step came to, where others follow.
pub(crate) fn goes_turn(
    inner: StepResult<Result<(), DestExists>>,
) -> StepResult<Result<(), DestExists>>
    ensures { result ≡ goes_turn inner }
{
    match inner {
        StepResult::More | StepResult::Done(Ok(())) => StepResult::More,
        StepResult::Done(Err(exists)) => StepResult::Done(Err(exists)),
    }
}

/// The phase behind a step that isn't refused.
pub(crate) fn puts(this: BuildPhase, next: BuildPhase, inner: &StepResult<()>) -> BuildPhase
    ensures { result ≡ puts this next inner.now }
{
    match inner {
        StepResult::More => this,
        StepResult::Done(()) => next,
    }
}

/// What the last such step came to.
pub(crate) fn puts_turn(inner: &StepResult<()>) -> StepResult<Result<(), DestExists>>
    ensures { result ≡ puts_turn inner.now }
{
    match inner {
        StepResult::More => StepResult::More,
        StepResult::Done(()) => StepResult::Done(Ok(())),
    }
}
