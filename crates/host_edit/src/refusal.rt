use ost_types::FsPath;

/// Why an edit isn't done, with its path. The first of these that is so is told.
#[derive(Drop, Debug)]
pub enum EditRefusal {
    /// No folder of the `etc` is there that the path would be in.
    NoParent(FsPath),
    /// Nothing stands there that could be removed.
    NoPath(FsPath),
    /// A folder stands there that has names, and so isn't removed.
    NotEmpty(FsPath),
    /// A folder stands where a leaf is to be put, or anything where a folder is to be made.
    KindClash(FsPath),
}
