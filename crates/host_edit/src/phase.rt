/// What the next step does.
#[derive(Clone, Copy, Debug, PartialEq, Eq)]
pub(crate) enum Phase {
    /// Stages a part of the file.
    Stage,
    /// Removes the leaf that an earlier task left at the staging path of the link.
    Clear,
    /// Makes the link there.
    Link,
    /// Looks at the path.
    Look,
    /// Renames what is staged to the path.
    Replace,
    /// Makes the folder.
    MakeFolder,
    /// Takes the leaf away.
    Unlink,
    /// Takes the empty folder away.
    RemoveFolder,
    /// Syncs the folder that the path is in.
    Sync,
    /// Nothing: the edit is done, and outlasts a crash.
    Ended,
}
