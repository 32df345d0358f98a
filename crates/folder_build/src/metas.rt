//! The attributes of what is made: owner 0, group 0 and no further ones.
ghost use Rattle.std.specs.Prelude.{◌≡◌};
ghost use Rattle.ost_types.specs.Mode.{IsFileMode, IsFolderMode, IsLinkMode};
ghost use Rattle.folder_build.specs.Node.{file_meta, folder_meta, link_meta};

use ost_types::{Meta, Xattrs};
use std::alloc::Global;

/// Those of a folder: mode 0o040755.
pub fn folder_meta(alloc: Global) -> Meta
    ensures value { result ≡ folder_meta }
    ensures mode { IsFolderMode result.mode }
{
    Meta {
        uid: 0,
        gid: 0,
        mode: 0o040755,
        xattrs: Xattrs::new(alloc),
    }
}

/// Those of a regular file: mode 0o100644.
pub fn file_meta(alloc: Global) -> Meta
    ensures value { result ≡ file_meta }
    ensures mode { IsFileMode result.mode }
{
    Meta {
        uid: 0,
        gid: 0,
        mode: 0o100644,
        xattrs: Xattrs::new(alloc),
    }
}

/// Those of a symbolic link: mode 0o120777.
pub fn link_meta(alloc: Global) -> Meta
    ensures value { result ≡ link_meta }
    ensures mode { IsLinkMode result.mode }
{
    Meta {
        uid: 0,
        gid: 0,
        mode: 0o120777,
        xattrs: Xattrs::new(alloc),
    }
}
