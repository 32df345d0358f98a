/// What may stand at a place.
#[derive(Clone, Copy, Debug, PartialEq, Eq)]
pub enum Rule {
    FolderOrNothing,
    NoFolder,
    /// A regular file or nothing.
    FileOrNothing,
}
