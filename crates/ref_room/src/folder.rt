//! The folders of refs.
ghost use Rattle.std.specs.Prelude.{◌≡◌, ◌≤◌, IfOk, length, take};
ghost use Rattle.ref_room.specs.Clash.{ref_folder};
ghost use Rattle.ref_room.specs.Way.{folder_meta};

use ost_types::{FsPath, Meta, NoMemory, Xattrs};
use repo_layout::{Folder, RefName, folder_path, ref_path};
use std::alloc::Global;

/// How many names the path of the folder of all refs has.
pub const HEADS: usize = 4;

/// The folder of a ref's file: the path without its last name.
pub fn ref_folder(alloc: Global, name: &RefName) -> Result<FsPath, NoMemory>
    ensures { IfOk result (λ p. p ≡ ref_folder name.now) }
{
    let at = ref_path(alloc, name)?;
    front(alloc, &at, at.names().len() - 1)
}

// the path of the first names
fn front(alloc: Global, path: &FsPath, count: usize) -> Result<FsPath, NoMemory>
    requires { count ≤ length path.now }
    ensures { IfOk result (λ p. p ≡ take count path.now) }
{
    let mut front = FsPath::root(alloc);
    for name in &path.names()[..count] {
        front = front.child(name)?;
    }
    Ok(front)
}

/// The attributes of a folder of refs: owner 0, group 0, mode 0o040755.
pub fn folder_meta(alloc: Global) -> Meta
    ensures { result ≡ folder_meta }
{
    Meta {
        uid: 0,
        gid: 0,
        mode: 0o040755,
        xattrs: Xattrs::new(alloc),
    }
}
