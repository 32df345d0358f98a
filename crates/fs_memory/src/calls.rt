ghost use Rattle.std.specs.Prelude.{◌≡◌, ◌⊎◌, ◌≤◌, ◌↔◌, Contains, IsTrue};
ghost use Rattle.fs_trait.specs.Count.{last, Rose};
ghost use Rattle.fs_trait.specs.Effect.{Next};
ghost use Rattle.fs_memory.specs.Calls.{IsNext};

/// The number of the next call. It stops at its last value, which no plan can name.
pub fn next_call(calls: u128) -> u128
    ensures { IsNext calls result }
{
    if calls == u128::MAX { calls } else { calls + 1 }
}

/// Whether a call's number is one of those that are to fail.
pub fn is_listed(fail: &[u64], call: u128) -> bool
    ensures { IsTrue result ↔ Contains fail.now call }
{
    fail.iter().any(|number| *number as u128 == call)
}

/// One fault more. The count stops at its last value.
pub fn one_more(faults: u64) -> u64
    ensures later { faults ≤ result }
    ensures rose { Rose faults result }
    ensures one { Next faults result ⊎ ((faults ≡ last) × (result ≡ faults)) }
{
    faults.saturating_add(1)
}
