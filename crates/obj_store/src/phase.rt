/// What came of putting an object.
#[derive(Clone, Copy, Debug, PartialEq, Eq)]
pub enum Put {
    /// The object was put at its path.
    Stored,
    /// Something stood at its path already, and stays.
    Present,
}

/// What the next step does.
#[derive(Clone, Copy, Debug, PartialEq, Eq)]
pub(crate) enum Phase {
    /// Looks whether something stands at the object's path; if not, removes what an earlier task left at the staging path.
    Look,
    /// Stages the file.
    Stage,
    /// Makes the folder of the object, where it isn't there.
    Folder,
    /// Links the staged file at the object's path, or makes the symbolic link there, where nothing stands.
    Link,
    /// Takes the staging path away.
    Unlink(Put),
    /// Nothing.
    Ended(Put),
}
