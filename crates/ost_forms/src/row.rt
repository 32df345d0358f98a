//! The rows of a folder's object, read where they lie: their names are texts, and their sums have any length.

/// The name of a file, and its sum.
#[derive(Clone, Copy)]
pub(crate) struct FileRow<'a> {
    pub(crate) name: &'a [u8],
    pub(crate) file: &'a [u8],
}

/// The name of a folder, and its sums.
#[derive(Clone, Copy)]
pub(crate) struct FolderRow<'a> {
    pub(crate) name: &'a [u8],
    pub(crate) tree: &'a [u8],
    pub(crate) meta: &'a [u8],
}

/// The rows of a folder.
#[derive(Drop)]
pub(crate) struct TreeRows<'a> {
    pub(crate) files: Vec<FileRow<'a>>,
    pub(crate) folders: Vec<FolderRow<'a>>,
}
