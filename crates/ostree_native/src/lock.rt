//! The lock of the repository: the machine's lock (`flock`) on its file `.lock`.
use std::fs::{File, OpenOptions};
use std::io::ErrorKind;
use std::os::unix::fs::OpenOptionsExt;
use std::{fs, io};

const ABOVE: &str = "./ostree";

const REPOSITORY: &str = "./ostree/repo";

const LOCK: &str = "./ostree/repo/.lock";

/// What `ostree` knows of a deployment that is to boot only from the next shutdown on, which no list names yet.
const STAGED: &str = "./run/ostree/staged-deployment";

const ABOVE_STAGED: [&str; 2] = ["./run", "./run/ostree"];

/// Another program works on the repository, or has yet to end what it began there, or it can't be locked.
#[derive(Clone, Copy, Debug, PartialEq, Eq)]
pub struct Held;

impl From<io::Error> for Held {
    fn from(_: io::Error) -> Held {
        Held
    }
}

/// Takes the lock for as long as the file is open. Where there is no repository yet, there is nothing to be locked. While `ostree` has a
/// deployment staged the repository counts as held: no list names that one yet, so it would go as one that nothing boots.
pub fn hold(rt: &HostRuntime) -> Result<Option<File>, Held> {
    if is_staged(rt)? {
        return Err(Held);
    }
    if !is_folder(rt, ABOVE)? || !is_folder(rt, REPOSITORY)? {
        return Ok(None);
    }
    let file = open_lock(rt)?;
    match file.try_lock() {
        Ok(()) => Ok(Some(file)),
        Err(_) => Err(Held),
    }
}

fn is_staged(rt: &HostRuntime) -> Result<bool, Held> {
    for folder in ABOVE_STAGED {
        if !is_folder(rt, folder)? {
            return Ok(false);
        }
    }
    match fs::symlink_metadata(rt, STAGED) {
        Ok(_) => Ok(true),
        Err(e) if e.kind() == ErrorKind::NotFound => Ok(false),
        Err(_) => Err(Held),
    }
}

// Whether a folder stands at a text. Where something else does, there is no repository either.
fn is_folder(rt: &HostRuntime, text: &str) -> Result<bool, Held> {
    match fs::symlink_metadata(rt, text) {
        Ok(metadata) => Ok(metadata.is_dir()),
        Err(e) if e.kind() == ErrorKind::NotFound => Ok(false),
        Err(_) => Err(Held),
    }
}

// Opens the file of the lock, or makes it as `ostree` does. A link in its place isn't followed.
fn open_lock(rt: &HostRuntime) -> Result<File, Held> {
    let mut options = OpenOptions::new();
    options.read(true).write(true).mode(0o660);
    match fs::symlink_metadata(rt, LOCK) {
        Ok(metadata) if metadata.is_file() => {}
        Ok(_) => return Err(Held),
        Err(e) if e.kind() == ErrorKind::NotFound => {
            options.create_new(true);
        }
        Err(_) => return Err(Held),
    }
    Ok(options.open(rt, LOCK)?)
}
