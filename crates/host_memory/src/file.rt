//! An open file or folder of the disk.
use crate::{Disk, Drive};
use std::cell::RefCell;
use std::fs::{Metadata, OpenFile};
use std::io;
use std::io::{ErrorKind, Read, Seek, SeekFrom, Write};

/// An open file or folder of the disk.
#[derive(Drop)]
pub struct MemoryFile<'a> {
    drive: &'a RefCell<Drive>,
    number: usize,
    at: u64,
}

impl<'a> MemoryFile<'a> {
    pub fn new(drive: &'a RefCell<Drive>, number: usize) -> MemoryFile<'a> {
        MemoryFile {
            drive,
            number,
            at: 0,
        }
    }
}

/// The disk is being looked at already, which no call here does.
pub fn in_use() -> io::Error {
    io::Error::from(ErrorKind::ResourceBusy)
}

impl Read for MemoryFile<'_> {
    fn read(&mut self, buf: &mut [u8]) -> io::Result<usize> {
        let Ok(drive) = self.drive.try_borrow() else {
            return Err(in_use());
        };
        let mut bytes = drive.disk().bytes(self.number, self.at)?;
        let count = bytes.read(buf)?;
        self.at = self.at.saturating_add(count as u64);
        Ok(count)
    }
}

impl Write for MemoryFile<'_> {
    // All is written at the end, as the callers do.
    fn write(&mut self, buf: &[u8]) -> io::Result<usize> {
        let Ok(mut drive) = self.drive.try_borrow_mut() else {
            return Err(in_use());
        };
        drive.begin()?.extend(self.number, buf)?;
        drive.end()?;
        Ok(buf.len())
    }

    fn flush(&mut self) -> io::Result<()> {
        Ok(())
    }
}

impl Seek for MemoryFile<'_> {
    fn seek(&mut self, to: SeekFrom) -> io::Result<u64> {
        match to {
            SeekFrom::Start(at) => {
                self.at = at;
                Ok(at)
            }
            _ => Err(io::Error::from(ErrorKind::Unsupported)),
        }
    }
}

impl OpenFile for MemoryFile<'_> {
    fn metadata(&self) -> io::Result<Metadata> {
        match self.drive.try_borrow() {
            Ok(drive) => Ok(metadata_of(drive.disk(), self.number)),
            Err(_) => Err(in_use()),
        }
    }

    fn set_len(&self, size: u64) -> io::Result<()> {
        let Ok(mut drive) = self.drive.try_borrow_mut() else {
            return Err(in_use());
        };
        drive.begin()?.cut(self.number, size)?;
        Ok(drive.end()?)
    }

    fn sync_all(&self) -> io::Result<()> {
        let Ok(mut drive) = self.drive.try_borrow_mut() else {
            return Err(in_use());
        };
        drive.begin()?.sync(self.number)?;
        Ok(drive.end()?)
    }

    fn sync_data(&self) -> io::Result<()> {
        self.sync_all()
    }
}

pub fn metadata_of(disk: &Disk, number: usize) -> Metadata {
    if disk.is_folder(number) {
        Metadata::of_dir()
    } else {
        Metadata::of_file(disk.len(number))
    }
}
