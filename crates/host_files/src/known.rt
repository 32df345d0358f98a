//! The folders of the host that were found.
use std::alloc::Global;
use std::collections::BTreeSet;

// No more are kept.
const MOST: usize = 4096;

/// The texts of folders that stand on the host. Not all of them need be known.
#[derive(Drop)]
pub struct Known {
    alloc: Global,
    texts: BTreeSet<String>,
}

impl Known {
    pub fn new(alloc: Global) -> Known {
        Known {
            alloc,
            texts: BTreeSet::new(alloc),
        }
    }

    /// Whether a folder is known to stand there.
    pub fn contains(&self, text: &str) -> bool {
        self.texts.contains(text)
    }

    /// Keeps a folder that was found, if there is room.
    pub fn add(&mut self, text: &str) {
        if self.texts.len() >= MOST {
            self.texts.clear();
        }
        if let Ok(text) = String::from_str(self.alloc, text) {
            let _ = self.texts.insert(text);
        }
    }

    /// Forgets a folder that is to be removed.
    pub fn forget(&mut self, text: &str) {
        self.texts.remove(text);
    }
}
