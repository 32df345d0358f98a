//! What is done before the first call: the folder is locked, and what an earlier process left unsynced is synced.
use crate::place::{PLACE, clear_place, remove};
use crate::{Fault, Machine, Mark};
use std::alloc::AllocError;
use std::fs::{File, OpenFile};
use std::io::ErrorKind;
use std::os::unix::fs::MetadataExt;
use std::{fs, io};

const TOP: &str = ".";

/// Why there is no start.
#[derive(Clone, Copy, Debug, PartialEq, Eq)]
pub enum NoStart {
    Failed,
    NoMemory,
}

impl From<io::Error> for NoStart {
    fn from(error: io::Error) -> NoStart {
        match error.kind() {
            ErrorKind::OutOfMemory => NoStart::NoMemory,
            _ => NoStart::Failed,
        }
    }
}

impl From<Fault> for NoStart {
    fn from(_: Fault) -> NoStart {
        NoStart::Failed
    }
}

impl From<AllocError> for NoStart {
    fn from(_: AllocError) -> NoStart {
        NoStart::NoMemory
    }
}

/// Locks the current folder, and syncs all below it unless the mark says that nothing is unsynced there. Gives the open
/// folder, which holds the lock, and whether there is a reserved place.
pub fn start<R: Machine>(rt: &R) -> Result<(R::File, Mark), NoStart> {
    let top = File::open(rt, TOP)?;
    if !rt.take_lock(&top) {
        return Err(NoStart::Failed);
    }
    let mark = Mark::find(rt)?;
    if mark != Mark::NoPlace {
        clear_place(rt, mark)?;
    }
    if mark != Mark::Clean {
        sync_below(rt, mark == Mark::NoPlace)?;
    }
    Ok((top, mark))
}

// Syncs each file and folder below the current one. Where a folder may be of the first version, what a call of it that was
// cut off left under the name that was reserved in each folder is removed.
fn sync_below<R: Machine>(rt: &R, is_first: bool) -> Result<(), NoStart> {
    let mut folders = Vec::new(rt.alloc());
    add(&mut folders, String::from_str(rt.alloc(), TOP)?)?;
    for _ in 0..u64::MAX {
        let Some(folder) = folders.pop() else {
            return Ok(());
        };
        sync_folder(rt, folder.as_str(), &mut folders, is_first)?;
    }
    Err(NoStart::Failed)
}

fn add(folders: &mut Vec<String>, folder: String) -> Result<(), NoStart> {
    match folders.push(folder) {
        Ok(()) => Ok(()),
        Err(_) => Err(NoStart::NoMemory),
    }
}

fn sync_folder<R: Machine>(
    rt: &R,
    folder: &str,
    folders: &mut Vec<String>,
    is_first: bool,
) -> Result<(), NoStart> {
    let entries = match fs::read_dir(rt, folder) {
        Ok(entries) => entries,
        Err(e) if is_no_node(&e) => return Ok(()),
        Err(e) => return Err(NoStart::from(e)),
    };
    for entry in entries {
        match entry {
            Ok(entry) if is_first && entry.file_name() == PLACE => {
                pass_place(rt, folder, entry.path().as_str(), folders)?
            }
            Ok(entry) => sync_entry(rt, entry.path().as_str(), folders)?,
            Err(e) if e.kind() == ErrorKind::InvalidFilename => {}
            Err(e) => return Err(NoStart::from(e)),
        }
    }
    sync_readable(rt, folder)
}

// What has the name that the first version reserved in each folder is removed where it is of that version.
fn pass_place<R: Machine>(
    rt: &R,
    folder: &str,
    text: &str,
    folders: &mut Vec<String>,
) -> Result<(), NoStart> {
    if is_of_first(rt, folder, text)? {
        Ok(remove(rt, text)?)
    } else {
        sync_entry(rt, text, folders)
    }
}

// Others than the owner may use what the first version made, where the umask let them, and never a node of this version.
// At the top no node has the name.
fn is_of_first<R: Machine>(rt: &R, folder: &str, text: &str) -> Result<bool, NoStart> {
    if folder == TOP {
        return Ok(true);
    }
    match fs::symlink_metadata(rt, text) {
        Ok(metadata) => Ok(!metadata.is_symlink() && metadata.mode() & 0o077 != 0),
        Err(e) if is_no_node(&e) => Ok(false),
        Err(e) => Err(NoStart::from(e)),
    }
}

// What isn't a file or a folder stands for no node.
fn sync_entry<R: Machine>(rt: &R, text: &str, folders: &mut Vec<String>) -> Result<(), NoStart> {
    match fs::symlink_metadata(rt, text) {
        Ok(metadata) if metadata.is_dir() => add(folders, String::from_str(rt.alloc(), text)?),
        Ok(metadata) if metadata.is_file() => sync_readable(rt, text),
        Ok(_) => Ok(()),
        Err(e) if is_no_node(&e) => Ok(()),
        Err(e) => Err(NoStart::from(e)),
    }
}

// Whether an error says that what was found is gone since, or may not be read, and so stands for no node either.
fn is_no_node(error: &io::Error) -> bool {
    matches!(
        error.kind(),
        ErrorKind::NotFound | ErrorKind::PermissionDenied
    )
}

fn sync_readable<R: Machine>(rt: &R, text: &str) -> Result<(), NoStart> {
    match File::open(rt, text) {
        Ok(file) => Ok(file.sync_all()?),
        Err(e) if is_no_node(&e) => Ok(()),
        Err(e) => Err(NoStart::from(e)),
    }
}
