//! A disk whose power can be cut, and what stood on it after each call.
use crate::Disk;
use std::alloc::{AllocError, Global};
use std::io;
use std::io::ErrorKind;

/// A disk, and what stood on it after each call that changed something.
#[derive(Drop)]
pub struct Drive {
    alloc: Global,
    disk: Disk,
    images: Vec<Disk>,
    keeps_images: bool,
    // How many more calls may change something.
    left: u64,
}

impl Drive {
    /// The drive of a disk. What stood on it after each call is kept where this says so.
    pub fn new(alloc: Global, disk: Disk, keeps_images: bool) -> Drive {
        Drive {
            alloc,
            disk,
            images: Vec::new(alloc),
            keeps_images,
            left: u64::MAX,
        }
    }

    pub fn disk(&self) -> &Disk {
        &self.disk
    }

    /// What stood on it after each call that changed something, since this was asked last.
    pub fn take_images(&mut self) -> Vec<Disk> {
        std::mem::replace(&mut self.images, Vec::new(self.alloc))
    }

    /// Lets so many more calls change something. Each later one fails.
    pub fn stop_after(&mut self, calls: u64) {
        self.left = calls;
    }

    pub fn is_stopped(&self) -> bool {
        self.left == 0
    }

    /// The disk, before a call that changes something.
    pub fn begin(&mut self) -> io::Result<&mut Disk> {
        if self.left == 0 {
            return Err(io::Error::from(ErrorKind::BrokenPipe));
        }
        self.left -= 1;
        self.disk.begin();
        Ok(&mut self.disk)
    }

    /// Keeps what stands on it, after such a call.
    pub fn end(&mut self) -> Result<(), AllocError> {
        if self.keeps_images {
            let image = self.disk.copy()?;
            self.images.push(image)?;
        }
        Ok(())
    }
}
