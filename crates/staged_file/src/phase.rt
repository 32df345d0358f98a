/// What the next step of the task does.
#[derive(Clone, Copy, Debug, PartialEq, Eq)]
pub enum Phase {
    /// Removes the leaf that an earlier task left at the staging path.
    Clear,
    /// Makes the empty file.
    Create,
    /// Appends a piece of the bytes.
    Append,
    /// Syncs the file.
    SyncFile,
    /// Looks whether a folder stands at the target.
    Look,
    /// Renames the file to its target.
    Replace,
    /// Syncs the target's folder.
    SyncFolder,
    /// Nothing: the file is at its target, and outlasts a crash there.
    Ended,
}
