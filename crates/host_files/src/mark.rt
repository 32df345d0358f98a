//! The mark of a folder below which nothing is unsynced.
use crate::place::{CLEAN, PLACE_TEXT};
use crate::private::{new_file, new_folder, sync};
use crate::{Fault, HostKind};
use std::fs::File;
use std::io::{ErrorKind, Read, Write};
use std::os::unix::fs::MetadataExt;
use std::rt::Files;
use std::{fs, io};

// How many bytes a mark has.
const IDENTITY: u64 = 16;

/// The reserved place and the mark in it.
#[derive(Clone, Copy, Debug, PartialEq, Eq)]
pub enum Mark {
    /// There is no reserved place.
    NoPlace,
    /// The reserved place has no mark.
    Open,
    /// It has the mark, and nothing was changed.
    Clean,
}

impl Mark {
    /// What is found at the start.
    pub fn find<R: Files>(rt: &R) -> Result<Mark, Fault> {
        if HostKind::of(rt, PLACE_TEXT)? != HostKind::Folder {
            return Ok(Mark::NoPlace);
        }
        if HostKind::of(rt, CLEAN)? != HostKind::File(IDENTITY) {
            return Ok(Mark::Open);
        }
        let mut found = [0u8; IDENTITY as usize];
        File::open(rt, CLEAN)?.read_exact(&mut found)?;
        if found == identity(rt)? {
            Ok(Mark::Clean)
        } else {
            Ok(Mark::Open)
        }
    }

    /// Before the first change: makes the reserved place, or takes the mark away, so that a crash shows it no more.
    pub fn open<R: Files>(&mut self, rt: &R) -> Result<(), Fault> {
        match self {
            Mark::Open => return Ok(()),
            Mark::NoPlace => {
                new_folder(rt, PLACE_TEXT)?;
                sync(rt, ".")?;
            }
            Mark::Clean => {
                fs::remove_file(rt, CLEAN)?;
                sync(rt, PLACE_TEXT)?;
            }
        }
        *self = Mark::Open;
        Ok(())
    }

    /// Puts the mark into the place, since nothing is unsynced.
    pub fn close<R: Files>(&mut self, rt: &R) -> Result<(), Fault> {
        if *self == Mark::Open {
            let bytes = identity(rt)?;
            let mut file = new_file(rt, CLEAN)?;
            file.write_all(&bytes)?;
            *self = Mark::Clean;
        }
        Ok(())
    }
}

// What tells the current folder from a copy of it: the numbers of its device and of itself.
fn identity<R: Files>(rt: &R) -> Result<[u8; IDENTITY as usize], Fault> {
    let metadata = fs::metadata(rt, ".")?;
    let [a, b, c, d, e, f, g, h] = metadata.dev().to_be_bytes();
    let [i, j, k, l, m, n, o, p] = metadata.ino().to_be_bytes();
    Ok([a, b, c, d, e, f, g, h, i, j, k, l, m, n, o, p])
}
