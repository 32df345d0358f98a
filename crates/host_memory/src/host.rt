//! The disk as a machine on which a file system stands.
use crate::file::{in_use, metadata_of};
use crate::{Drive, MemoryDir, MemoryFile};
use host_files::{Machine, Syncs, sync};
use std::alloc::{AllocError, Allocator, Global};
use std::cell::RefCell;
use std::fs::{Metadata, OpenOptions};
use std::io;
use std::io::ErrorKind;
use std::rt::Files;

/// A machine whose current folder lies on this disk.
#[derive(Drop)]
pub struct MemoryHost<'a> {
    alloc: Global,
    drive: &'a RefCell<Drive>,
}

impl<'a> MemoryHost<'a> {
    pub fn new(alloc: Global, drive: &'a RefCell<Drive>) -> MemoryHost<'a> {
        MemoryHost { alloc, drive }
    }
}

impl Clone for MemoryHost<'_> {
    fn clone(&self) -> Result<Self, AllocError> {
        Ok(MemoryHost {
            alloc: self.alloc,
            drive: self.drive,
        })
    }
}

impl Alloc for MemoryHost<'_> {
    type A = Global;

    fn alloc(&self) -> Global {
        self.alloc
    }
}

// The number of the file that is to be opened.
fn opened(drive: &mut Drive, how: &OpenOptions, path: &str) -> io::Result<usize> {
    how.check()?;
    if how.asks_create_new() {
        let number = drive.begin()?.make(path, false)?;
        drive.end()?;
        return Ok(number);
    }
    let number = drive.disk().find(path)?;
    if (how.asks_write() || how.asks_append()) && drive.disk().is_folder(number) {
        return Err(io::Error::from(ErrorKind::IsADirectory));
    }
    Ok(number)
}

impl<'a> Files for MemoryHost<'a> {
    type File = MemoryFile<'a>;

    type Dir = MemoryDir;

    fn open_file(&self, how: &OpenOptions, path: &str) -> io::Result<MemoryFile<'a>> {
        match self.drive.try_borrow_mut() {
            Ok(mut drive) => Ok(MemoryFile::new(self.drive, opened(&mut drive, how, path)?)),
            Err(_) => Err(in_use()),
        }
    }

    fn open_dir(&self, path: &str) -> io::Result<MemoryDir> {
        match self.drive.try_borrow() {
            Ok(drive) => Ok(MemoryDir::new(drive.disk().names(drive.disk().find(path)?)?)),
            Err(_) => Err(in_use()),
        }
    }

    fn metadata(&self, path: &str) -> io::Result<Metadata> {
        match self.drive.try_borrow() {
            Ok(drive) => Ok(metadata_of(drive.disk(), drive.disk().find(path)?)),
            Err(_) => Err(in_use()),
        }
    }

    fn symlink_metadata(&self, path: &str) -> io::Result<Metadata> {
        self.metadata(path)
    }

    fn copy(&self, _from: &str, _to: &str) -> io::Result<u64> {
        Err(io::Error::from(ErrorKind::Unsupported))
    }

    fn rename(&self, from: &str, to: &str) -> io::Result<()> {
        let Ok(mut drive) = self.drive.try_borrow_mut() else {
            return Err(in_use());
        };
        drive.begin()?.rename(from, to)?;
        Ok(drive.end()?)
    }

    fn remove_file(&self, path: &str) -> io::Result<()> {
        let Ok(mut drive) = self.drive.try_borrow_mut() else {
            return Err(in_use());
        };
        drive.begin()?.remove_file(path)?;
        Ok(drive.end()?)
    }

    fn create_dir(&self, path: &str) -> io::Result<()> {
        let Ok(mut drive) = self.drive.try_borrow_mut() else {
            return Err(in_use());
        };
        drive.begin()?.make(path, true)?;
        Ok(drive.end()?)
    }

    fn remove_dir(&self, path: &str) -> io::Result<()> {
        let Ok(mut drive) = self.drive.try_borrow_mut() else {
            return Err(in_use());
        };
        drive.begin()?.remove_folder(path)?;
        Ok(drive.end()?)
    }

    fn remove_dir_all<B: Allocator>(&self, _alloc: B, path: &str) -> io::Result<()> {
        let Ok(mut drive) = self.drive.try_borrow_mut() else {
            return Err(in_use());
        };
        drive.begin()?.remove_all(path)?;
        Ok(drive.end()?)
    }

    fn hard_link(&self, original: &str, link: &str) -> io::Result<()> {
        let Ok(mut drive) = self.drive.try_borrow_mut() else {
            return Err(in_use());
        };
        drive.begin()?.link(original, link)?;
        Ok(drive.end()?)
    }

    fn create_dir_with_mode(&self, path: &str, _mode: u32) -> io::Result<()> {
        self.create_dir(path)
    }
}

impl Syncs for MemoryHost<'_> {
    fn sync_at(&self, text: &str) -> bool {
        sync(self, text).is_ok()
    }
}

impl Machine for MemoryHost<'_> {
    fn take_lock(&self, _folder: &Self::File) -> bool {
        true
    }
}
