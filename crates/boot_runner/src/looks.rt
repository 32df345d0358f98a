//! What stands on a disk, as one sees it who names each path.
use fs_memory::MemFs;
use fs_trait::{Fs, FsErr, Node};
use ost_types::{FsPath, Names};
use sheet::{Fields, Stop, text};
use std::alloc::Global;

/// An answer, where every refusal is one that no call of a sheet is to have.
pub fn known<T: Drop>(answer: Result<T, FsErr>) -> Result<T, Stop> {
    match answer {
        Ok(value) => Ok(value),
        Err(FsErr::NoMemory) => Err(Stop::NoMemory),
        Err(_) => Err(Stop::Unknown),
    }
}

pub fn path_of(alloc: Global, text: &str) -> Result<FsPath, Stop> {
    FsPath::parse(alloc, text.as_bytes()).map_err(|_| Stop::Unknown)
}

/// A link's target, `file` and its bytes, a folder's names, or `none`.
pub fn look(fs: &mut MemFs, fields: &mut Fields) -> Result<Vec<u8>, Stop> {
    let at = path_of(fields.alloc(), fields.text()?)?;
    look_at(fs, fields.alloc(), &at)
}

fn look_at(fs: &mut MemFs, alloc: Global, at: &FsPath) -> Result<Vec<u8>, Stop> {
    match known(fs.stat(at))? {
        None => text(alloc, "none"),
        Some(Node::Link { target, .. }) => told_link(alloc, target.as_str()),
        Some(Node::File { .. }) => Ok(known(fs.read(at))?.into_vec()),
        Some(Node::Folder(_)) => told_names(alloc, &known(fs.list(at))?),
    }
}

fn told_link(alloc: Global, target: &str) -> Result<Vec<u8>, Stop> {
    let told = format!(in alloc; "to {target}")?;
    text(alloc, told.as_str())
}

// Each name behind a space.
fn told_names(alloc: Global, names: &Names) -> Result<Vec<u8>, Stop> {
    let mut told = text(alloc, "names")?;
    for name in names.as_slice() {
        told.push(b' ')?;
        told.extend_from_slice(name.as_slice())?;
    }
    Ok(told)
}
