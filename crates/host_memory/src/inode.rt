//! What a name of the disk leads to.
use std::alloc::{AllocError, Global};
use std::collections::BTreeMap;

/// The names of a folder, each with the number of what it leads to.
pub type Names = BTreeMap<String, usize>;

/// A folder's names as they are, and those that outlast a loss of power.
#[derive(Drop)]
pub struct Folder {
    pub names: Names,
    pub lasting: Names,
}

/// A file's bytes as they are, and those that outlast a loss of power.
#[derive(Drop)]
pub struct File {
    pub bytes: Vec<u8>,
    pub lasting: Vec<u8>,
}

/// A folder or a regular file.
#[derive(Drop)]
pub enum Inode {
    Folder(Folder),
    File(File),
}

impl File {
    /// Lets its bytes outlast a loss of power.
    pub fn sync(&mut self) -> Result<(), AllocError> {
        self.lasting.clear();
        self.lasting.extend_from_slice(&self.bytes)
    }
}

impl Inode {
    pub fn folder(alloc: Global) -> Inode {
        Inode::Folder(Folder {
            names: BTreeMap::new(alloc),
            lasting: BTreeMap::new(alloc),
        })
    }

    pub fn file(alloc: Global) -> Inode {
        Inode::File(File {
            bytes: Vec::new(alloc),
            lasting: Vec::new(alloc),
        })
    }

    pub fn is_folder(&self) -> bool {
        matches!(self, Inode::Folder(_))
    }

    pub fn copy(&self, alloc: Global) -> Result<Inode, AllocError> {
        match self {
            Inode::Folder(folder) => Ok(Inode::Folder(Folder {
                names: copy_names(alloc, &folder.names)?,
                lasting: copy_names(alloc, &folder.lasting)?,
            })),
            Inode::File(file) => Ok(Inode::File(File {
                bytes: Vec::from_slice(alloc, &file.bytes)?,
                lasting: Vec::from_slice(alloc, &file.lasting)?,
            })),
        }
    }
}

pub fn copy_names(alloc: Global, names: &Names) -> Result<Names, AllocError> {
    let mut copy = BTreeMap::new(alloc);
    for (name, number) in names {
        set_name(alloc, &mut copy, name.as_str(), Some(*number))?;
    }
    Ok(copy)
}

/// Lets a name lead to this, or to nothing.
pub fn set_name(
    alloc: Global,
    names: &mut Names,
    name: &str,
    to: Option<usize>,
) -> Result<(), AllocError> {
    match to {
        None => {
            names.remove(name);
            Ok(())
        }
        Some(number) => match names.insert(String::from_str(alloc, name)?, number) {
            Ok(_) => Ok(()),
            Err(_) => Err(AllocError),
        },
    }
}
