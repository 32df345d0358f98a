ghost use Rattle.ost_types.specs.Mode.{IsFileMode, IsFolderMode};

use ost_types::{Meta, Xattrs};
use std::alloc::Global;

/// The attributes of a folder that this user owns.
pub fn folder_meta(alloc: Global, uid: u32) -> Meta
    ensures { IsFolderMode result.mode }
{
    Meta {
        uid,
        gid: 0,
        mode: 0o040755,
        xattrs: Xattrs::new(alloc),
    }
}

/// The attributes of a regular file of the first user.
pub fn file_meta(alloc: Global) -> Meta
    ensures { IsFileMode result.mode }
{
    Meta {
        uid: 0,
        gid: 0,
        mode: 0o100644,
        xattrs: Xattrs::new(alloc),
    }
}
