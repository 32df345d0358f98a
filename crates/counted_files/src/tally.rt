use crate::call::Call;
use crate::calls::Calls;
use std::cell::Cell;

/// Counts calls of a file system for whoever looks on from outside.
#[derive(Drop)]
pub struct Tally {
    calls: Cell<Calls>,
}

impl Tally {
    pub fn new() -> Tally {
        Tally {
            calls: Cell::new(Calls::none()),
        }
    }

    pub fn count(&self, call: Call) {
        self.calls.set(self.calls.get().with(call));
    }

    /// The calls since the last look.
    pub fn take(&self) -> Calls {
        self.calls.replace(Calls::none())
    }
}
