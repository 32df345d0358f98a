use file_copy::FileCopy;

/// What the next step does.
#[derive(Drop, Debug)]
pub(crate) enum TreePhase {
    /// Looks whether something stands at the path; if not, makes the folder there.
    Begin,
    /// Makes the node of the map with this number; where that is a regular file, only looks at its object.
    Make(usize),
    /// Copies the regular file of this number.
    Copy(usize, FileCopy),
    /// Nothing: the folder is a copy of the map.
    Ended,
    /// Nothing: something stood at the path.
    Refused,
}
