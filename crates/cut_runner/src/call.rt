//! A changing call of a file system.
use crate::stop::Stop;
use fs_trait::{Fs, FsErr};
use ost_types::{
    Bytes, FsPath, Meta, Text, Xattr, Xattrs, is_file_mode, is_folder_mode, is_link_mode,
};
use std::alloc::Global;

/// What a call does.
#[derive(Clone, Copy, Debug, PartialEq, Eq)]
pub enum Kind {
    Mkdir,
    /// A folder with an owner and an extended attribute.
    MkdirOwned,
    Create,
    /// A file with an owner and an extended attribute.
    CreateOwned,
    Append,
    Symlink,
    Link,
    Unlink,
    Rmdir,
    Rename,
    SyncFile,
    SyncDir,
    SyncAll,
}

/// A changing call: what it does, a path, and a second path, bytes, or a target.
#[derive(Drop)]
pub struct Call {
    pub kind: Kind,
    pub at: String,
    pub second: String,
}

type Made = Result<Result<(), FsErr>, Stop>;

pub fn path(alloc: Global, text: &str) -> Result<FsPath, Stop> {
    match FsPath::parse(alloc, text.as_bytes()) {
        Ok(path) => Ok(path),
        Err(_) => Err(Stop::Wrong(String::from_str(alloc, text)?)),
    }
}

fn meta_of(alloc: Global, mode: u32) -> Meta {
    Meta {
        uid: 0,
        gid: 0,
        mode,
        xattrs: Xattrs::new(alloc),
    }
}

fn owned_meta_of(alloc: Global, mode: u32) -> Result<Meta, Stop> {
    let mut xattrs = Xattrs::new(alloc);
    xattrs.push(xattr(alloc)?)?;
    Ok(Meta {
        uid: 1,
        gid: 0,
        mode,
        xattrs,
    })
}

fn xattr(alloc: Global) -> Result<Xattr, Stop> {
    let name = Bytes::from_slice(alloc, b"user.a\0")?;
    let value = Bytes::from_slice(alloc, b"x")?;
    Ok(Xattr { name, value })
}

fn mkdir<F: Fs>(fs: &mut F, at: &FsPath, meta: &Meta) -> Result<(), FsErr> {
    if is_folder_mode(meta.mode) {
        fs.mkdir(at, meta)
    } else {
        Err(FsErr::Failed)
    }
}

fn mkdir_owned<F: Fs>(alloc: Global, fs: &mut F, at: &FsPath) -> Made {
    let meta = owned_meta_of(alloc, 0o041777)?;
    Ok(mkdir(fs, at, &meta))
}

fn create<F: Fs>(fs: &mut F, at: &FsPath, meta: &Meta) -> Result<(), FsErr> {
    if is_file_mode(meta.mode) {
        fs.create(at, meta)
    } else {
        Err(FsErr::Failed)
    }
}

fn create_owned<F: Fs>(alloc: Global, fs: &mut F, at: &FsPath) -> Made {
    let meta = owned_meta_of(alloc, 0o104755)?;
    Ok(create(fs, at, &meta))
}

fn symlink<F: Fs>(alloc: Global, fs: &mut F, at: &FsPath, target: &str) -> Made {
    match Text::parse(alloc, target.as_bytes())? {
        Some(target) => Ok(symlink_to(fs, at, &target, &meta_of(alloc, 0o120777))),
        None => Ok(Err(FsErr::Failed)),
    }
}

fn symlink_to<F: Fs>(fs: &mut F, at: &FsPath, target: &Text, meta: &Meta) -> Result<(), FsErr> {
    if is_link_mode(meta.mode) && !target.as_slice().is_empty() {
        fs.symlink(at, target, meta)
    } else {
        Err(FsErr::Failed)
    }
}

fn link<F: Fs>(alloc: Global, fs: &mut F, from: &FsPath, to: &str) -> Made {
    let to = path(alloc, to)?;
    Ok(fs.link(from, &to))
}

fn rename<F: Fs>(alloc: Global, fs: &mut F, from: &FsPath, to: &str) -> Made {
    let to = path(alloc, to)?;
    Ok(rename_apart(fs, from, &to))
}

// Two names of one file aren't given to `rename`.
fn rename_apart<F: Fs>(fs: &mut F, from: &FsPath, to: &FsPath) -> Result<(), FsErr> {
    if fs.same(from, to)? {
        Ok(())
    } else {
        fs.rename(from, to)
    }
}

impl Call {
    /// Whether it changes something on any file system where nothing refuses it: a rename to a name of the same file isn't made.
    pub fn is_made<F: Fs>(&self, alloc: Global, fs: &mut F) -> Result<bool, Stop> {
        match self.kind {
            Kind::Rename => Ok(!self.is_of_one(alloc, fs)?),
            _ => Ok(true),
        }
    }

    // Whether both paths lead to one file.
    fn is_of_one<F: Fs>(&self, alloc: Global, fs: &mut F) -> Result<bool, Stop> {
        let at = path(alloc, self.at.as_str())?;
        let second = path(alloc, self.second.as_str())?;
        Ok(fs.same(&at, &second)?)
    }

    /// What a file system answers to it.
    pub fn perform<F: Fs>(&self, alloc: Global, fs: &mut F) -> Made {
        let at = path(alloc, self.at.as_str())?;
        self.perform_at(alloc, fs, &at)
    }

    fn perform_at<F: Fs>(&self, alloc: Global, fs: &mut F, at: &FsPath) -> Made {
        match self.kind {
            Kind::Mkdir => Ok(mkdir(fs, at, &meta_of(alloc, 0o040755))),
            Kind::MkdirOwned => mkdir_owned(alloc, fs, at),
            Kind::Create => Ok(create(fs, at, &meta_of(alloc, 0o100644))),
            Kind::CreateOwned => create_owned(alloc, fs, at),
            Kind::Append => Ok(fs.append(at, self.second.as_bytes())),
            Kind::Symlink => symlink(alloc, fs, at, self.second.as_str()),
            Kind::Link => link(alloc, fs, at, self.second.as_str()),
            Kind::Rename => rename(alloc, fs, at, self.second.as_str()),
            _ => Ok(self.perform_on_one(fs, at)),
        }
    }

    fn perform_on_one<F: Fs>(&self, fs: &mut F, at: &FsPath) -> Result<(), FsErr> {
        match self.kind {
            Kind::Unlink => fs.unlink(at),
            Kind::Rmdir => fs.rmdir(at),
            Kind::SyncFile => fs.sync_file(at),
            Kind::SyncDir => fs.sync_dir(at),
            _ => fs.sync_all(),
        }
    }
}
