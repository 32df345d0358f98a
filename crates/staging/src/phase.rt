/// What the next step does.
#[derive(Clone, Copy, Debug, PartialEq, Eq)]
pub enum Phase {
    /// Removes the leaf that an earlier task left at the staging path.
    Clear,
    /// Makes the empty file.
    Create,
    /// Appends a piece of the bytes.
    Append,
    /// Syncs the file.
    SyncFile,
    /// Nothing: the whole file is there, and its bytes outlast a crash.
    Ended,
}
