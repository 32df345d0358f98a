//! A change of a name that isn't sure to outlast a loss of power.
use std::alloc::{AllocError, Global};

/// What a name of a folder leads to from now on.
#[derive(Drop)]
pub struct Change {
    /// The call that made it. Those of one call outlast a loss of power together or not at all.
    pub call: u64,
    pub folder: usize,
    pub name: String,
    pub to: Option<usize>,
}

impl Change {
    pub fn copy(&self, alloc: Global) -> Result<Change, AllocError> {
        Ok(Change {
            call: self.call,
            folder: self.folder,
            name: String::from_str(alloc, self.name.as_str())?,
            to: self.to,
        })
    }
}
