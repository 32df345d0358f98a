ghost use Rattle.std.specs.Prelude.{◌≡◌};
ghost use Rattle.fs_memory.specs.Recorded.{planned};

/// A call that is to fail, before its effect or after.
#[derive(Clone, Copy, Debug)]
pub struct FailAt {
    /// The number of the call, from 1.
    pub call: u64,
    /// Whether it takes its effect first.
    pub done: bool,
}

/// What the plan says of a call.
pub fn plan_of(plan: &[FailAt], call: u128) -> Option<bool>
    ensures { result ≡ planned plan.now call }
{
    for entry in plan {
        if entry.call as u128 == call {
            return Some(entry.done);
        }
    }
    None
}
