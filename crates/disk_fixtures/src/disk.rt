use crate::attributes::{file_meta, folder_meta};
use fs_memory::MemFs;
use fs_trait::{Fs, FsErr};
use ost_forms::sum_of;
use ost_types::{Bytes, Csum, FsPath, Kind, ObjName};
use repo_layout::{Folder, folder_path, object_path, objects_folder_path};
use std::alloc::Global;

/// The folder, where nothing stands there.
fn make_folder(fs: &mut MemFs, alloc: Global, at: &FsPath) -> Result<(), FsErr> {
    match fs.mkdir(at, &folder_meta(alloc, 0)) {
        Err(FsErr::Exists) => Ok(()),
        other => other,
    }
}

/// A disk with the folders of the objects, of the marks and of the checkouts.
pub fn laid_out(alloc: Global) -> Result<MemFs, FsErr> {
    let mut fs = MemFs::new(alloc)?;
    for folder in [
        Folder::Ostree,
        Folder::Repo,
        Folder::Objects,
        Folder::State,
        Folder::Checkouts,
    ] {
        make_folder(&mut fs, alloc, &folder_path(alloc, folder)?)?;
    }
    Ok(fs)
}

/// A regular file with these bytes at the object's path, whatever its name says.
pub fn put_bytes(fs: &mut MemFs, alloc: Global, name: &ObjName, bytes: &[u8]) -> Result<(), FsErr> {
    make_folder(fs, alloc, &objects_folder_path(alloc, &name.csum)?)?;
    let at = object_path(alloc, name)?;
    fs.create(&at, &file_meta(alloc))?;
    fs.append(&at, bytes)
}

/// The same under the name of the bytes.
pub fn put_named(fs: &mut MemFs, alloc: Global, kind: Kind, bytes: &[u8]) -> Result<Csum, FsErr> {
    let csum = sum_of(bytes);
    put_bytes(fs, alloc, &ObjName { csum, kind }, bytes)?;
    Ok(csum)
}

/// The entries of an empty folder, and a folder's attributes: owner 0, group 0 and mode 0755.
const EMPTY: [u8; 1] = [0];

const ATTRIBUTES: [u8; 12] = [0, 0, 0, 0, 0, 0, 0, 0, 0, 0, 0x41, 0xed];

/// The root's entries and attributes, where the tree has one folder, `d`.
pub fn put_root(fs: &mut MemFs, alloc: Global) -> Result<(Csum, Csum), FsErr> {
    let meta = put_named(fs, alloc, Kind::DirMeta, &ATTRIBUTES)?;
    let empty = put_named(fs, alloc, Kind::DirTree, &EMPTY)?;
    let mut bytes = Bytes::from_slice(alloc, b"d\0")?;
    bytes.append(empty.bytes())?;
    bytes.append(meta.bytes())?;
    bytes.append(&[34, 2, 68, 0])?;
    Ok((put_named(fs, alloc, Kind::DirTree, bytes.as_slice())?, meta))
}
