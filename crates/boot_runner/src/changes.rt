//! Changes of a disk beside those of a swap.
use crate::looks::{known, path_of};
use crate::untold::Untold;
use boot_model::{BootItem, DepId};
use fs_trait::{Fs, FsErr};
use ost_types::{FsPath, Meta, Text, Xattrs, is_file_mode, is_folder_mode, is_link_mode};
use sheet::{Fields, Stop, text};
use std::alloc::Global;

/// A call that changes the disk: the path, and a file's bytes or a link's target.
pub fn change(fs: &mut Untold, name: &str, fields: &mut Fields) -> Result<Vec<u8>, Stop> {
    let at = path_of(fields.alloc(), fields.text()?)?;
    change_at(fs, name, &at, fields)?;
    text(fields.alloc(), "ok")
}

fn change_at(fs: &mut Untold, name: &str, at: &FsPath, fields: &mut Fields) -> Result<(), Stop> {
    match name {
        "make_folder" => make_folder(fs, fields.alloc(), at),
        "make_file" => make_file(fs, at, fields),
        "make_link" => make_link(fs, at, fields),
        "remove" => known(fs.unlink(at)),
        _ => Err(Stop::Unknown),
    }
}

fn meta(alloc: Global, mode: u32) -> Meta {
    Meta {
        uid: 0,
        gid: 0,
        mode,
        xattrs: Xattrs::new(alloc),
    }
}

// One that is there already stays.
fn make_folder(fs: &mut Untold, alloc: Global, at: &FsPath) -> Result<(), Stop> {
    let meta = meta(alloc, 0o040755);
    if !is_folder_mode(meta.mode) {
        return Err(Stop::Unknown);
    }
    match fs.mkdir(at, &meta) {
        Ok(()) | Err(FsErr::Exists) => Ok(()),
        Err(_) => Err(Stop::Unknown),
    }
}

fn make_file(fs: &mut Untold, at: &FsPath, fields: &mut Fields) -> Result<(), Stop> {
    let bytes = fields.bytes()?;
    let meta = meta(fields.alloc(), 0o100644);
    if !is_file_mode(meta.mode) {
        return Err(Stop::Unknown);
    }
    known(fs.create(at, &meta))?;
    known(fs.append(at, &bytes))
}

fn make_link(fs: &mut Untold, at: &FsPath, fields: &mut Fields) -> Result<(), Stop> {
    let target = target(fields)?;
    let meta = meta(fields.alloc(), 0o120777);
    if !is_link_mode(meta.mode) || target.as_slice().is_empty() {
        return Err(Stop::Unknown);
    }
    known(fs.symlink(at, &target, &meta))
}

fn target(fields: &mut Fields) -> Result<Text, Stop> {
    let bytes = fields.bytes()?;
    Text::parse(fields.alloc(), &bytes)?.ok_or(Stop::Unknown)
}

/// The folders that a sysroot has before anything boots.
pub fn lay_out(fs: &mut Untold, alloc: Global) -> Result<(), Stop> {
    for folder in ["/boot", "/boot/ostree", "/ostree", "/ostree/deploy"] {
        make_folder_named(fs, alloc, folder)?;
    }
    known(fs.sync_all())
}

fn make_folder_named(fs: &mut Untold, alloc: Global, at: &str) -> Result<(), Stop> {
    let at = path_of(alloc, at)?;
    make_folder(fs, alloc, &at)
}

/// The folders of these deployments, all of which then outlast a crash.
pub fn deploy(fs: &mut Untold, alloc: Global, items: &[BootItem]) -> Result<(), Stop> {
    for item in items {
        deploy_one(fs, alloc, &item.id)?;
    }
    known(fs.sync_all())
}

fn deploy_one(fs: &mut Untold, alloc: Global, id: &DepId) -> Result<(), Stop> {
    let os = std::str::from_utf8(id.os.as_slice()).map_err(|_| Stop::Unknown)?;
    let stateroot = format!(in alloc; "/ostree/deploy/{os}")?;
    make_folder_named(fs, alloc, stateroot.as_str())?;
    let all = format!(in alloc; "{stateroot}/deploy")?;
    make_folder_named(fs, alloc, all.as_str())?;
    make_deployment(fs, alloc, all.as_str(), id)
}

fn make_deployment(fs: &mut Untold, alloc: Global, all: &str, id: &DepId) -> Result<(), Stop> {
    let byte = id.commit.bytes()[0];
    let digits = format!(in alloc; "{byte:02x}")?.repeat(alloc, 32)?;
    let one = format!(in alloc; "{all}/{digits}.{}", id.serial)?;
    make_folder_named(fs, alloc, one.as_str())
}
