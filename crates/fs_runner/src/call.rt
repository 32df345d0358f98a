//! Calls of any file system, by their names.
use crate::look::look;
use crate::meta::{Owner, content, meta, path, target};
use crate::word::word;
use fs_trait::{Fs, FsErr};
use ost_types::{FsPath, Meta, Text, is_file_mode, is_folder_mode, is_link_mode};
use sheet::{Fields, Stop, text};

// A call that changes something.
#[derive(Clone, Copy)]
enum Kind {
    Mkdir,
    Create,
    Symlink,
    Append,
    Link,
    Rename,
    Unlink,
    Rmdir,
    SyncFile,
    SyncDir,
    SyncAll,
}

type Made = Result<Result<(), FsErr>, Stop>;

/// What a call of this name answers. What it makes without an owner is this one's.
pub fn call<F: Fs>(
    fs: &mut F,
    owner: Owner,
    name: &str,
    fields: &mut Fields,
) -> Result<Vec<u8>, Stop> {
    match kind_named(name) {
        Some(kind) => change(fs, owner, kind, fields),
        None => look(fs, name, fields),
    }
}

fn kind_named(name: &str) -> Option<Kind> {
    match name {
        "mkdir" => Some(Kind::Mkdir),
        "create" => Some(Kind::Create),
        "symlink" => Some(Kind::Symlink),
        "append" => Some(Kind::Append),
        "link" => Some(Kind::Link),
        "rename" => Some(Kind::Rename),
        "unlink" => Some(Kind::Unlink),
        "rmdir" => Some(Kind::Rmdir),
        "sync_file" => Some(Kind::SyncFile),
        "sync_dir" => Some(Kind::SyncDir),
        "sync_all" => Some(Kind::SyncAll),
        _ => None,
    }
}

// The clock goes on with each.
fn change<F: Fs>(
    fs: &mut F,
    owner: Owner,
    kind: Kind,
    fields: &mut Fields,
) -> Result<Vec<u8>, Stop> {
    let before = fs.clock();
    let answer = make(fs, owner, kind, fields)?;
    let is_later = before < fs.clock();
    text(
        fields.alloc(),
        if is_later { word(answer) } else { "still" },
    )
}

fn make<F: Fs>(fs: &mut F, owner: Owner, kind: Kind, fields: &mut Fields) -> Made {
    match kind {
        Kind::SyncAll => Ok(fs.sync_all()),
        _ => make_at(fs, owner, kind, &path(fields)?, fields),
    }
}

fn make_at<F: Fs>(fs: &mut F, owner: Owner, kind: Kind, at: &FsPath, fields: &mut Fields) -> Made {
    match kind {
        Kind::Mkdir => mkdir(fs, owner, at, fields),
        Kind::Create => create(fs, owner, at, fields),
        Kind::Symlink => symlink(fs, owner, at, fields),
        Kind::Append => append(fs, at, fields),
        Kind::Link | Kind::Rename => make_from(fs, kind, at, fields),
        _ => Ok(change_one(fs, kind, at)),
    }
}

fn mkdir<F: Fs>(fs: &mut F, owner: Owner, at: &FsPath, fields: &mut Fields) -> Made {
    let meta = meta(fields, owner, 0o040755)?;
    if !is_folder_mode(meta.mode) {
        return Err(Stop::Unknown);
    }
    Ok(fs.mkdir(at, &meta))
}

fn create<F: Fs>(fs: &mut F, owner: Owner, at: &FsPath, fields: &mut Fields) -> Made {
    let meta = meta(fields, owner, 0o100644)?;
    if !is_file_mode(meta.mode) {
        return Err(Stop::Unknown);
    }
    Ok(fs.create(at, &meta))
}

fn symlink<F: Fs>(fs: &mut F, owner: Owner, at: &FsPath, fields: &mut Fields) -> Made {
    let target = target(fields)?;
    let meta = meta(fields, owner, 0o120777)?;
    symlink_to(fs, at, &target, &meta)
}

fn symlink_to<F: Fs>(fs: &mut F, at: &FsPath, target: &Text, meta: &Meta) -> Made {
    if !is_link_mode(meta.mode) || target.as_slice().is_empty() {
        return Err(Stop::Unknown);
    }
    Ok(fs.symlink(at, target, meta))
}

fn append<F: Fs>(fs: &mut F, at: &FsPath, fields: &mut Fields) -> Made {
    let bytes = content(fields)?;
    Ok(fs.append(at, &bytes))
}

fn make_from<F: Fs>(fs: &mut F, kind: Kind, from: &FsPath, fields: &mut Fields) -> Made {
    let to = path(fields)?;
    match kind {
        Kind::Link => Ok(fs.link(from, &to)),
        _ => rename(fs, from, &to),
    }
}

// Two names of one file may not be given to it.
fn rename<F: Fs>(fs: &mut F, from: &FsPath, to: &FsPath) -> Made {
    match fs.same(from, to) {
        Ok(false) => Ok(fs.rename(from, to)),
        Ok(true) => Err(Stop::Unknown),
        Err(fault) => Ok(Err(fault)),
    }
}

fn change_one<F: Fs>(fs: &mut F, kind: Kind, at: &FsPath) -> Result<(), FsErr> {
    match kind {
        Kind::Unlink => fs.unlink(at),
        Kind::Rmdir => fs.rmdir(at),
        Kind::SyncFile => fs.sync_file(at),
        _ => fs.sync_dir(at),
    }
}
