use ost_types::FsPath;

/// Why a folder isn't read as a map. The paths are those in the folder; what comes before them was read.
#[derive(Drop, Debug)]
pub enum ScanFault {
    /// What stands at the path of the folder is none.
    NotFolder,
    /// What stands here is no node of a tree: its mode isn't that of what it is, a link leads nowhere, or a file's content is above
    /// the limit.
    Unreadable(FsPath),
    /// There are more paths than the limit.
    TooMany,
    /// The folder here has a name whose path is past the bounds of paths.
    TooLong(FsPath),
}
