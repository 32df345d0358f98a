//! What is asked of the machine besides its calls on files.
use crate::private::sync;
use std::fs::File;
use std::rt::Files;

/// What makes a file's bytes outlast a crash. It has no types of its own, so that threads can share it.
pub trait Syncs {
    /// Syncs the file at a text. False where that failed.
    fn sync_at(&self, text: &str) -> bool;
}

impl Syncs for HostRuntime {
    fn sync_at(&self, text: &str) -> bool {
        sync(self, text).is_ok()
    }
}

/// A machine whose current folder can be a file system.
pub trait Machine: Files + Syncs + AllocGlobal + Clone + Drop {
    /// Takes the machine's lock on an open folder, which lasts until that is closed. False where another open of the
    /// folder holds it, or the machine has no such lock.
    fn take_lock(&self, folder: &Self::File) -> bool;
}

impl Machine for HostRuntime {
    fn take_lock(&self, folder: &File) -> bool {
        folder.try_lock().is_ok()
    }
}
