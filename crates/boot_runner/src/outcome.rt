//! Which lists were seen.
use sheet::{Stop, text};
use std::alloc::Global;

/// Of a swap from one list to another: which of the two were seen, and whether any other was.
#[derive(Drop)]
pub struct Outcome {
    old: Vec<u8>,
    new: Vec<u8>,
    is_old: bool,
    is_new: bool,
    is_other: bool,
}

impl Outcome {
    pub fn new(old: Vec<u8>, new: Vec<u8>) -> Outcome {
        Outcome {
            old,
            new,
            is_old: false,
            is_new: false,
            is_other: false,
        }
    }

    pub fn add(&mut self, list: &[u8]) {
        if list == self.old.as_slice() {
            self.is_old = true;
        } else if list == self.new.as_slice() {
            self.is_new = true;
        } else {
            self.is_other = true;
        }
    }

    /// What else was seen than is to be.
    pub fn add_other(&mut self) {
        self.is_other = true;
    }

    /// Begins again.
    pub fn clear(&mut self) {
        self.is_old = false;
        self.is_new = false;
        self.is_other = false;
    }

    /// `old`, `new`, `old new`, or `other`.
    pub fn told(&self) -> &'static str {
        match (self.is_other, self.is_old, self.is_new) {
            (true, _, _) => "other",
            (false, true, true) => "old new",
            (false, true, false) => "old",
            (false, false, true) => "new",
            (false, false, false) => "nothing",
        }
    }
}

/// What was seen before the end of something, and at its end.
pub fn before_and_after(alloc: Global, before: &str, after: &str) -> Result<Vec<u8>, Stop> {
    text(alloc, format!(in alloc; "{before}, {after}")?.as_str())
}
