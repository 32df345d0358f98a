ghost use Rattle.std.specs.Prelude.{◌≡◌, ◌≤◌, ◌↔◌, IsTrue, max};
ghost use Rattle.counted_files.specs.Counting.{one_step_more};

use crate::calls::Calls;

/// The most calls that a step of some work makes.
#[derive(Clone, Copy)]
pub struct Most {
    pub steps: u64,
    /// Those of the first step that reads most.
    pub reading: Calls,
    /// Those of the first step that changes most.
    pub changing: Calls,
}

impl Most {
    pub fn none() -> Most
        ensures { (result.steps ≡ 0) × (result.reading.reading ≡ 0) × (result.changing.changing ≡ 0) }
    {
        Most {
            steps: 0,
            reading: Calls::none(),
            changing: Calls::none(),
        }
    }

    /// The same with one step more.
    pub fn with(self, calls: Calls) -> Most
        ensures steps { result.steps ≡ one_step_more self.steps }
        ensures reading { result.reading.reading ≡ max self.reading.reading calls.reading }
        ensures changing { result.changing.changing ≡ max self.changing.changing calls.changing }
    {
        Most {
            steps: self.steps.saturating_add(1),
            reading: reads_most(self.reading, calls),
            changing: changes_most(self.changing, calls),
        }
    }

    /// Whether each step makes at most two reading calls and one changing one.
    pub fn is_within(self) -> bool
        ensures { IsTrue result ↔ ((self.reading.reading ≤ 2) × (self.changing.changing ≤ 1)) }
    {
        self.reading.reading <= 2 && self.changing.changing <= 1
    }
}

fn reads_most(one: Calls, other: Calls) -> Calls
    ensures { result.reading ≡ max one.reading other.reading }
{
    if other.reading > one.reading {
        other
    } else {
        one
    }
}

fn changes_most(one: Calls, other: Calls) -> Calls
    ensures { result.changing ≡ max one.changing other.changing }
{
    if other.changing > one.changing {
        other
    } else {
        one
    }
}
