use ost_types::{Bytes, FsPath, Meta, Text, Xattrs};

/// A leaf that is to be put at a path.
#[derive(Drop, Debug)]
pub enum NewLeaf {
    /// A regular file with these attributes and bytes.
    File {
        meta: Meta,
        bytes: Bytes,
    },
    /// A symbolic link with this target, which isn't empty. Its mode is 0o120777.
    Link {
        uid: u32,
        gid: u32,
        xattrs: Xattrs,
        target: Text,
    },
}

/// An edit. Its path goes on from the path of the `etc`.
#[derive(Drop, Debug)]
pub enum Edit {
    /// Puts a leaf at the path, in the place of the leaf that stands there.
    Put { path: FsPath, leaf: NewLeaf },
    /// Makes a folder where nothing stands.
    MakeFolder { path: FsPath, meta: Meta },
    /// Removes a leaf, or a folder that has no names.
    Remove { path: FsPath },
}
