//! A machine that answers as a sheet asks.
use host_files::{Machine, Syncs, sync};
use std::alloc::{AllocError, Allocator, Global};
use std::cell::Cell;
use std::fs::{Metadata, OpenOptions};
use std::io;
use std::io::ErrorKind;
use std::path::PathBuf;
use std::rt::Files;

/// The file whose opens are counted.
pub const WATCHED: &str = "./killed/leaf";

// The second young file, whose sync may fail.
const LOST: &str = "./.ost-new/0001";

/// What a machine is to answer, and what was seen of it.
#[derive(Drop)]
pub struct Watch {
    /// The error of each link, where links fail.
    pub link: Cell<Option<ErrorKind>>,
    /// Whether the sync of the second young file fails.
    pub loses: Cell<bool>,
    /// How often the file was opened.
    pub opens: Cell<u32>,
    /// How often it was looked at what stands at a text.
    pub looks: Cell<u32>,
}

impl Watch {
    pub fn new() -> Watch {
        Watch {
            link: Cell::new(None),
            loses: Cell::new(false),
            opens: Cell::new(0),
            looks: Cell::new(0),
        }
    }
}

/// A machine whose links and one sync may fail, and whose looks and opens of one file are counted.
#[derive(Drop)]
pub struct Watched<'a, R> {
    pub rt: R,
    pub watch: &'a Watch,
}

impl<R: Clone> Clone for Watched<'_, R> {
    fn clone(&self) -> Result<Self, AllocError> {
        Ok(Watched {
            rt: self.rt.clone()?,
            watch: self.watch,
        })
    }
}

impl<R: Machine> Alloc for Watched<'_, R> {
    type A = Global;

    fn alloc(&self) -> Global {
        self.rt.alloc()
    }
}

impl<R: Machine> Files for Watched<'_, R> {
    type File = R::File;

    type Dir = R::Dir;

    fn open_file(&self, how: &OpenOptions, path: &str) -> io::Result<R::File> {
        if path == WATCHED {
            let opens = self.watch.opens.get();
            self.watch.opens.set(opens.saturating_add(1));
        }
        self.rt.open_file(how, path)
    }

    fn open_dir(&self, path: &str) -> io::Result<Self::Dir> {
        self.rt.open_dir(path)
    }

    fn metadata(&self, path: &str) -> io::Result<Metadata> {
        self.rt.metadata(path)
    }

    fn symlink_metadata(&self, path: &str) -> io::Result<Metadata> {
        let looks = self.watch.looks.get();
        self.watch.looks.set(looks.saturating_add(1));
        self.rt.symlink_metadata(path)
    }

    fn copy(&self, from: &str, to: &str) -> io::Result<u64> {
        self.rt.copy(from, to)
    }

    fn rename(&self, from: &str, to: &str) -> io::Result<()> {
        self.rt.rename(from, to)
    }

    fn remove_file(&self, path: &str) -> io::Result<()> {
        self.rt.remove_file(path)
    }

    fn create_dir(&self, path: &str) -> io::Result<()> {
        self.rt.create_dir(path)
    }

    fn remove_dir(&self, path: &str) -> io::Result<()> {
        self.rt.remove_dir(path)
    }

    fn remove_dir_all<B: Allocator>(&self, alloc: B, path: &str) -> io::Result<()> {
        self.rt.remove_dir_all(alloc, path)
    }

    fn hard_link(&self, original: &str, link: &str) -> io::Result<()> {
        match self.watch.link.get() {
            None => self.rt.hard_link(original, link),
            Some(kind) => Err(io::Error::from(kind)),
        }
    }

    fn create_dir_with_mode(&self, path: &str, mode: u32) -> io::Result<()> {
        self.rt.create_dir_with_mode(path, mode)
    }

    fn read_link<B: Allocator>(&self, alloc: B, path: &str) -> io::Result<PathBuf<B>> {
        self.rt.read_link(alloc, path)
    }

    fn symlink(&self, original: &str, link: &str) -> io::Result<()> {
        self.rt.symlink(original, link)
    }

    fn lchown(&self, path: &str, uid: Option<u32>, gid: Option<u32>) -> io::Result<()> {
        self.rt.lchown(path, uid, gid)
    }
}

impl<R: Machine> Syncs for Watched<'_, R> {
    fn sync_at(&self, text: &str) -> bool {
        !(text == LOST && self.watch.loses.get()) && sync(self, text).is_ok()
    }
}

impl<R: Machine> Machine for Watched<'_, R> {
    fn take_lock(&self, folder: &R::File) -> bool {
        self.rt.take_lock(folder)
    }
}
