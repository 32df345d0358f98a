//! All that a file system shows.
use crate::call::path;
use crate::stop::Stop;
use fs_trait::{Fs, Node};
use ost_types::{Bytes, FsPath, Meta, Names, Text, TryCopy};
use std::alloc::Global;
use std::collections::BTreeMap;

/// A node: a file with its bytes.
#[derive(Drop)]
pub enum Seen {
    Folder(Meta),
    File(Meta, Bytes),
    Link(Meta, Bytes),
}

/// What stands at each path but the root, by the path's text.
pub type Tree = BTreeMap<String, Seen>;

fn same_meta(one: &Meta, two: &Meta) -> bool {
    one.uid == two.uid
        && one.gid == two.gid
        && one.mode == two.mode
        && one.xattrs.as_slice().len() == two.xattrs.as_slice().len()
}

impl Seen {
    /// Whether two are the same, the bytes of files left aside.
    pub fn is_like(&self, other: &Seen) -> bool {
        match (self, other) {
            (Seen::Folder(one), Seen::Folder(two)) => same_meta(one, two),
            (Seen::File(one, _), Seen::File(two, _)) => same_meta(one, two),
            (Seen::Link(one, a), Seen::Link(two, b)) => same_meta(one, two)
                && a.as_slice() == b.as_slice(),
            _ => false,
        }
    }

    pub fn copy(&self) -> Result<Seen, Stop> {
        match self {
            Seen::Folder(meta) => Ok(Seen::Folder(meta.copy()?)),
            Seen::File(meta, bytes) => Ok(Seen::File(meta.copy()?, bytes.copy()?)),
            Seen::Link(meta, target) => Ok(Seen::Link(meta.copy()?, target.copy()?)),
        }
    }

    /// The bytes of a file, none of another node.
    pub fn bytes(&self) -> &[u8] {
        match self {
            Seen::File(_, bytes) => bytes.as_slice(),
            _ => &[],
        }
    }

    pub fn is_folder(&self) -> bool {
        matches!(self, Seen::Folder(_))
    }
}

/// All that a file system shows.
pub fn read_tree<F: Fs>(alloc: Global, fs: &mut F) -> Result<Tree, Stop> {
    let mut tree = BTreeMap::new(alloc);
    let mut folders = Vec::new(alloc);
    folders.push(String::new(alloc))?;
    for _ in 0..u64::MAX {
        let Some(folder) = folders.pop() else {
            break;
        };
        read_folder(alloc, fs, folder.as_str(), &mut folders, &mut tree)?;
    }
    Ok(tree)
}

fn read_folder<F: Fs>(
    alloc: Global,
    fs: &mut F,
    folder: &str,
    folders: &mut Vec<String>,
    tree: &mut Tree,
) -> Result<(), Stop> {
    let names = names_in(alloc, fs, folder)?;
    for name in names.as_slice() {
        let text = format!(in alloc; "{folder}/{}", name.as_str())?;
        read_child(alloc, fs, text, folders, tree)?;
    }
    Ok(())
}

fn names_in<F: Fs>(alloc: Global, fs: &mut F, folder: &str) -> Result<Names, Stop> {
    let at = path(alloc, if folder.is_empty() { "/" } else { folder })?;
    Ok(fs.list(&at)?)
}

fn read_child<F: Fs>(
    alloc: Global,
    fs: &mut F,
    text: String,
    folders: &mut Vec<String>,
    tree: &mut Tree,
) -> Result<(), Stop> {
    let at = path(alloc, text.as_str())?;
    let seen = read_node(alloc, fs, &at, text.as_str())?;
    if seen.is_folder() {
        folders.push(String::from_str(alloc, text.as_str())?)?;
    }
    tree.insert(text, seen)?;
    Ok(())
}

/// What stands at a path.
pub fn read_node<F: Fs>(alloc: Global, fs: &mut F, at: &FsPath, text: &str) -> Result<Seen, Stop> {
    match fs.stat(at)? {
        Some(Node::Folder(meta)) => Ok(Seen::Folder(meta)),
        Some(Node::File { meta, .. }) => read_file(fs, at, meta),
        Some(Node::Link { meta, target }) => read_link(alloc, meta, &target),
        None => Err(Stop::Wrong(String::from_str(alloc, text)?)),
    }
}

fn read_file<F: Fs>(fs: &mut F, at: &FsPath, meta: Meta) -> Result<Seen, Stop> {
    Ok(Seen::File(meta, fs.read(at)?))
}

fn read_link(alloc: Global, meta: Meta, target: &Text) -> Result<Seen, Stop> {
    Ok(Seen::Link(meta, Bytes::from_slice(alloc, target.as_slice())?))
}
