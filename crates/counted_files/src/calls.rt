ghost use Rattle.std.specs.Prelude.{◌≡◌, true, false};
ghost use Rattle.counted_files.specs.Counting.{is_reading, one_more};

use crate::call::Call;

/// How many calls of a step read and how many change something, and which the first four of them are.
#[derive(Clone, Copy)]
pub struct Calls {
    pub reading: u32,
    pub changing: u32,
    pub first: [Option<Call>; 4],
}

impl Calls {
    pub fn none() -> Calls
        ensures { (result.reading ≡ 0) × (result.changing ≡ 0) }
    {
        Calls {
            reading: 0,
            changing: 0,
            first: [None; 4],
        }
    }

    /// The same and then this one.
    pub fn with(self, call: Call) -> Calls
        ensures reads { is_reading call ≡ true → (result.reading ≡ one_more self.reading) × (result.changing ≡ self.changing) }
        ensures changes { is_reading call ≡ false → (result.reading ≡ self.reading) × (result.changing ≡ one_more self.changing) }
    {
        let first = with_next(self.first, call);
        if call.is_reading() {
            Calls {
                reading: self.reading.saturating_add(1),
                changing: self.changing,
                first,
            }
        } else {
            Calls {
                reading: self.reading,
                changing: self.changing.saturating_add(1),
                first,
            }
        }
    }
}

// The call stands at the first place that is free, if one is.
fn with_next(first: [Option<Call>; 4], call: Call) -> [Option<Call>; 4] {
    match first {
        [None, _, _, _] => [Some(call), None, None, None],
        [one, None, _, _] => [one, Some(call), None, None],
        [one, two, None, _] => [one, two, Some(call), None],
        [one, two, three, None] => [one, two, three, Some(call)],
        all => all,
    }
}
