//! The disk: folders and files by their numbers, and the changes of names that weren't synced.
use crate::Loss;
use crate::change::Change;
use crate::inode::{File, Folder, Inode, copy_names, set_name};
use crate::loss::LostBytes;
use crate::paths::{is_no_step, split_last};
use std::alloc::{AllocError, Global};
use std::io;
use std::io::ErrorKind;

/// A disk. The folder that is current has the number 0.
#[derive(Drop)]
pub struct Disk {
    alloc: Global,
    inodes: Vec<Inode>,
    // The oldest first.
    pending: Vec<Change>,
    calls: u64,
}

fn error<T: Drop>(kind: ErrorKind) -> io::Result<T> {
    Err(io::Error::from(kind))
}

impl Disk {
    /// A disk with nothing on it.
    pub fn new(alloc: Global) -> Result<Disk, AllocError> {
        let mut inodes = Vec::new(alloc);
        inodes.push(Inode::folder(alloc))?;
        Ok(Disk::of(alloc, inodes))
    }

    fn of(alloc: Global, inodes: Vec<Inode>) -> Disk {
        Disk {
            alloc,
            inodes,
            pending: Vec::new(alloc),
            calls: 0,
        }
    }

    /// The same disk, where nothing was lost.
    pub fn copy(&self) -> Result<Disk, AllocError> {
        let mut copy = Disk::of(self.alloc, self.copy_inodes()?);
        for change in &self.pending {
            copy.pending.push(change.copy(self.alloc)?)?;
        }
        copy.calls = self.calls;
        Ok(copy)
    }

    fn copy_inodes(&self) -> Result<Vec<Inode>, AllocError> {
        let mut inodes = Vec::new(self.alloc);
        for inode in &self.inodes {
            inodes.push(inode.copy(self.alloc)?)?;
        }
        Ok(inodes)
    }

    /// What a loss of power leaves.
    pub fn after_loss(&self, loss: Loss) -> Result<Disk, AllocError> {
        let mut inodes = Vec::new(self.alloc);
        let mut number: usize = 0;
        for inode in &self.inodes {
            inodes.push(left_of(self.alloc, inode, loss.of_file(number))?)?;
            number = number.saturating_add(1);
        }
        let mut left = Disk::of(self.alloc, inodes);
        for change in &self.pending {
            if !loss.loses_call(change.call) {
                left.settle(change.folder, change.name.as_str(), change.to)?;
                left.set(change.folder, change.name.as_str(), change.to)?;
            }
        }
        Ok(left)
    }

    /// Before a call that changes something: the changes of names that it makes are one.
    pub fn begin(&mut self) {
        self.calls = self.calls.saturating_add(1);
    }

    // What a name of a folder leads to.
    fn name_in(&self, folder: usize, name: &str) -> io::Result<Option<usize>> {
        match self.inodes.get(folder) {
            Some(Inode::Folder(folder)) => Ok(folder.names.get(name).copied()),
            _ => error(ErrorKind::NotADirectory),
        }
    }

    /// The number of what stands at a text.
    pub fn find(&self, text: &str) -> io::Result<usize> {
        let mut at = 0;
        for name in text.split('/') {
            if is_no_step(name) {
                continue;
            }
            match self.name_in(at, name)? {
                Some(number) => at = number,
                None => return error(ErrorKind::NotFound),
            }
        }
        Ok(at)
    }

    pub fn is_folder(&self, number: usize) -> bool {
        match self.inodes.get(number) {
            Some(inode) => inode.is_folder(),
            None => false,
        }
    }

    /// The number of bytes of a file, 0 of a folder.
    pub fn len(&self, number: usize) -> u64 {
        match self.inodes.get(number) {
            Some(Inode::File(file)) => file.bytes.len() as u64,
            _ => 0,
        }
    }

    /// The bytes of a file from a place on.
    pub fn bytes(&self, number: usize, from: u64) -> io::Result<&[u8]> {
        match self.inodes.get(number) {
            Some(Inode::File(file)) => Ok(file.bytes.get(from as usize..).unwrap_or(&[])),
            _ => error(ErrorKind::IsADirectory),
        }
    }

    /// The names of a folder, each with a zero behind it.
    pub fn names(&self, number: usize) -> io::Result<Vec<u8>> {
        let Some(Inode::Folder(folder)) = self.inodes.get(number) else {
            return error(ErrorKind::NotADirectory);
        };
        let mut all = Vec::new(self.alloc);
        for (name, _) in &folder.names {
            all.extend_from_slice(name.as_bytes())?;
            all.push(0)?;
        }
        Ok(all)
    }

    // Where the last name of a text stands: the number of its folder, and what it leads to.
    fn place(&self, text: &str) -> io::Result<(usize, Option<usize>)> {
        let (folder, name) = split_last(text);
        let folder = self.find(folder)?;
        Ok((folder, self.name_in(folder, name)?))
    }

    // Gives a name of a folder what it leads to, as it is now.
    fn set(&mut self, folder: usize, name: &str, to: Option<usize>) -> Result<(), AllocError> {
        match self.inodes.get_mut(folder) {
            Some(Inode::Folder(folder)) => set_name(self.alloc, &mut folder.names, name, to),
            _ => Ok(()),
        }
    }

    // Gives it to a name so that it outlasts a loss of power.
    fn settle(&mut self, folder: usize, name: &str, to: Option<usize>) -> Result<(), AllocError> {
        match self.inodes.get_mut(folder) {
            Some(Inode::Folder(folder)) => set_name(self.alloc, &mut folder.lasting, name, to),
            _ => Ok(()),
        }
    }

    // The same, where it isn't sure to outlast one.
    fn change(&mut self, folder: usize, name: &str, to: Option<usize>) -> io::Result<()> {
        self.set(folder, name, to)?;
        let name = String::from_str(self.alloc, name)?;
        self.pending.push(Change {
            call: self.calls,
            folder,
            name,
            to,
        })?;
        Ok(())
    }

    fn add(&mut self, inode: Inode, folder: usize, name: &str) -> io::Result<usize> {
        let number = self.inodes.len();
        self.inodes.push(inode)?;
        self.change(folder, name, Some(number))?;
        Ok(number)
    }

    /// A new file at a text, or a new folder. Gives its number.
    pub fn make(&mut self, text: &str, is_folder: bool) -> io::Result<usize> {
        let (folder, None) = self.place(text)? else {
            return error(ErrorKind::AlreadyExists);
        };
        let inode = if is_folder {
            Inode::folder(self.alloc)
        } else {
            Inode::file(self.alloc)
        };
        let number = self.add(inode, folder, split_last(text).1)?;
        Ok(number)
    }

    /// Adds bytes to a file.
    pub fn extend(&mut self, number: usize, more: &[u8]) -> io::Result<()> {
        match self.inodes.get_mut(number) {
            Some(Inode::File(file)) => file.bytes.extend_from_slice(more)?,
            _ => return error(ErrorKind::IsADirectory),
        }
        Ok(())
    }

    /// Cuts a file.
    pub fn cut(&mut self, number: usize, len: u64) -> io::Result<()> {
        match self.inodes.get_mut(number) {
            Some(Inode::File(file)) => file.bytes.truncate(len as usize),
            _ => return error(ErrorKind::IsADirectory),
        }
        Ok(())
    }

    /// Gives a file another name.
    pub fn link(&mut self, from: &str, to: &str) -> io::Result<()> {
        let number = self.find(from)?;
        if self.is_folder(number) {
            return error(ErrorKind::PermissionDenied);
        }
        let (folder, None) = self.place(to)? else {
            return error(ErrorKind::AlreadyExists);
        };
        self.change(folder, split_last(to).1, Some(number))
    }

    /// Takes a file's name away.
    pub fn remove_file(&mut self, text: &str) -> io::Result<()> {
        let (folder, Some(number)) = self.place(text)? else {
            return error(ErrorKind::NotFound);
        };
        if self.is_folder(number) {
            return error(ErrorKind::IsADirectory);
        }
        self.change(folder, split_last(text).1, None)
    }

    /// Removes a folder that has no names.
    pub fn remove_folder(&mut self, text: &str) -> io::Result<()> {
        let (folder, Some(number)) = self.place(text)? else {
            return error(ErrorKind::NotFound);
        };
        if !self.names(number)?.is_empty() {
            return error(ErrorKind::DirectoryNotEmpty);
        }
        self.change(folder, split_last(text).1, None)
    }

    /// Removes what stands at a text, with all below it.
    pub fn remove_all(&mut self, text: &str) -> io::Result<()> {
        let (folder, Some(_)) = self.place(text)? else {
            return error(ErrorKind::NotFound);
        };
        self.change(folder, split_last(text).1, None)
    }

    /// Gives what stands at one text another.
    pub fn rename(&mut self, from: &str, to: &str) -> io::Result<()> {
        let (source, Some(number)) = self.place(from)? else {
            return error(ErrorKind::NotFound);
        };
        let (target, there) = self.place(to)?;
        if let Some(there) = there {
            if self.is_folder(there) {
                return error(ErrorKind::IsADirectory);
            }
        }
        self.change(target, split_last(to).1, Some(number))?;
        self.change(source, split_last(from).1, None)
    }

    /// Lets a file's bytes, or a folder's names, outlast a loss of power.
    pub fn sync(&mut self, number: usize) -> io::Result<()> {
        match self.inodes.get_mut(number) {
            Some(Inode::File(file)) => Ok(file.sync()?),
            _ => Ok(self.sync_folder(number)?),
        }
    }

    // The calls that changed a name of the folder outlast it, whatever else they changed.
    fn sync_folder(&mut self, number: usize) -> Result<(), AllocError> {
        let alloc = self.alloc;
        let pending = std::mem::replace(&mut self.pending, Vec::new(alloc));
        let calls = calls_in(alloc, &pending, number)?;
        let mut kept = Vec::new(alloc);
        for change in pending {
            if calls.contains(&change.call) {
                self.settle(change.folder, change.name.as_str(), change.to)?;
                forget(&mut kept, &change);
            } else {
                kept.push(change)?;
            }
        }
        self.pending = kept;
        Ok(())
    }
}

// The calls that changed a name of a folder.
fn calls_in(alloc: Global, pending: &[Change], folder: usize) -> Result<Vec<u64>, AllocError> {
    let mut calls = Vec::new(alloc);
    for change in pending {
        if change.folder == folder {
            calls.push(change.call)?;
        }
    }
    Ok(calls)
}

// Earlier changes of a name are past.
fn forget(kept: &mut Vec<Change>, later: &Change) {
    kept.retain(|change| change.folder != later.folder || change.name != later.name);
}

fn left_of(alloc: Global, inode: &Inode, lost: LostBytes) -> Result<Inode, AllocError> {
    match inode {
        Inode::Folder(folder) => Ok(Inode::Folder(Folder {
            names: copy_names(alloc, &folder.lasting)?,
            lasting: copy_names(alloc, &folder.lasting)?,
        })),
        Inode::File(file) => {
            let left = match lost {
                LostBytes::None => Vec::from_slice(alloc, &file.bytes)?,
                LostBytes::All => Vec::from_slice(alloc, &file.lasting)?,
                LostBytes::Zeroed => zeroed(alloc, &file.bytes, &file.lasting)?,
            };
            Ok(Inode::File(File {
                bytes: Vec::from_slice(alloc, &left)?,
                lasting: left,
            }))
        }
    }
}

// The bytes that lasted, and zeros up to the file's length.
fn zeroed(alloc: Global, bytes: &[u8], lasting: &[u8]) -> Result<Vec<u8>, AllocError> {
    let mut left = Vec::from_slice(alloc, lasting)?;
    for _ in lasting.len()..bytes.len() {
        left.push(0)?;
    }
    Ok(left)
}
