//! What is done on the host beside the file system.
use sheet::{Fields, Stop, text};
use std::alloc::Global;
use std::fs::{OpenFile, OpenOptions, Permissions};
use std::os::unix::fs::{MetadataExt, PermissionsExt};
use std::rt::Files;
use std::{fs, io};

/// What a call of this name on the host answers.
pub fn on_host<R: Files + AllocGlobal>(
    rt: &R,
    name: &str,
    fields: &mut Fields,
) -> Result<Vec<u8>, Stop> {
    let at = fields.text()?;
    match name {
        "host_bytes" => bytes(rt, at),
        "host_mode" => mode(rt, at, fields.alloc()),
        "host_time" => time(rt, at, fields.alloc()),
        "host_kind" => text(fields.alloc(), kind(rt, at)),
        _ => changed(rt, name, at, fields),
    }
}

fn bytes<R: Files + AllocGlobal>(rt: &R, at: &str) -> Result<Vec<u8>, Stop> {
    fs::read(rt, at).map_err(|_| Stop::Unknown)
}

fn mode<R: Files + AllocGlobal>(rt: &R, at: &str, alloc: Global) -> Result<Vec<u8>, Stop> {
    match fs::symlink_metadata(rt, at) {
        Ok(metadata) => octal(alloc, metadata.mode() & 0o7777),
        Err(_) => text(alloc, "none"),
    }
}

fn octal(alloc: Global, mode: u32) -> Result<Vec<u8>, Stop> {
    let told = format!(in alloc; "{mode:o}")?;
    text(alloc, told.as_str())
}

// When it was written last, in seconds since 1970.
fn time<R: Files + AllocGlobal>(rt: &R, at: &str, alloc: Global) -> Result<Vec<u8>, Stop> {
    match fs::symlink_metadata(rt, at) {
        Ok(metadata) => seconds(alloc, metadata.mtime()),
        Err(_) => text(alloc, "none"),
    }
}

fn seconds(alloc: Global, time: i64) -> Result<Vec<u8>, Stop> {
    let told = format!(in alloc; "{time}")?;
    text(alloc, told.as_str())
}

fn kind<R: Files + AllocGlobal>(rt: &R, at: &str) -> &'static str {
    match fs::symlink_metadata(rt, at) {
        Ok(metadata) if metadata.is_symlink() => "link",
        Ok(_) => "other",
        Err(_) => "none",
    }
}

fn changed<R: Files + AllocGlobal>(
    rt: &R,
    name: &str,
    at: &str,
    fields: &mut Fields,
) -> Result<Vec<u8>, Stop> {
    let answer = change(rt, name, at, fields)?;
    text(fields.alloc(), done(answer))
}

fn done(answer: io::Result<()>) -> &'static str {
    match answer {
        Ok(()) => "ok",
        Err(_) => "error",
    }
}

fn change<R: Files + AllocGlobal>(
    rt: &R,
    name: &str,
    at: &str,
    fields: &mut Fields,
) -> Result<io::Result<()>, Stop> {
    match name {
        "host_file" => write(rt, at, fields),
        "host_link" => link(rt, at, fields),
        "host_long" => lengthen(rt, at, fields),
        _ => change_at(rt, name, at),
    }
}

fn write<R: Files + AllocGlobal>(
    rt: &R,
    at: &str,
    fields: &mut Fields,
) -> Result<io::Result<()>, Stop> {
    let bytes = fields.bytes()?;
    Ok(fs::write(rt, at, &bytes))
}

fn link<R: Files + AllocGlobal>(
    rt: &R,
    at: &str,
    fields: &mut Fields,
) -> Result<io::Result<()>, Stop> {
    let target = fields.text()?;
    Ok(std::os::unix::fs::symlink(rt, target, at))
}

fn lengthen<R: Files + AllocGlobal>(
    rt: &R,
    at: &str,
    fields: &mut Fields,
) -> Result<io::Result<()>, Stop> {
    let len = fields.number()?;
    Ok(set_len(rt, at, len))
}

fn set_len<R: Files + AllocGlobal>(rt: &R, at: &str, len: u64) -> io::Result<()> {
    OpenOptions::new().write(true).open(rt, at)?.set_len(len)
}

// A change that needs no more than the path.
fn change_at<R: Files + AllocGlobal>(rt: &R, name: &str, at: &str) -> Result<io::Result<()>, Stop> {
    match name {
        "host_new" => Ok(renew(rt, at)),
        "host_folder" => Ok(fs::create_dir(rt, at)),
        "host_share" => Ok(share(rt, at)),
        "host_unlink" => Ok(fs::remove_file(rt, at)),
        "host_clear" => Ok(fs::remove_dir_all(rt, at)),
        _ => Err(Stop::Unknown),
    }
}

// A folder with nothing in it.
fn renew<R: Files + AllocGlobal>(rt: &R, at: &str) -> io::Result<()> {
    let _ = fs::remove_dir_all(rt, at);
    fs::create_dir(rt, at)
}

// All may read it.
fn share<R: Files + AllocGlobal>(rt: &R, at: &str) -> io::Result<()> {
    fs::set_permissions(rt, at, Permissions::from_mode(0o644))
}
