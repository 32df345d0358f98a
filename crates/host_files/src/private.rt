//! Host files and folders that only their owner may read.
use crate::Fault;
use std::fs::{DirBuilder, File, OpenFile, OpenOptions};
use std::io;
use std::os::unix::fs::{DirBuilderExt, OpenOptionsExt};
use std::rt::Files;

/// A new file of mode 0600, open for writing, where nothing stands.
pub fn new_file<R: Files>(rt: &R, text: &str) -> io::Result<R::File> {
    let mut options = OpenOptions::new();
    options.write(true).create_new(true).mode(0o600);
    options.open(rt, text)
}

/// A new folder of mode 0700, where nothing stands.
pub fn new_folder<R: Files>(rt: &R, text: &str) -> io::Result<()> {
    let mut builder = DirBuilder::new();
    builder.mode(0o700);
    builder.create(rt, text)
}

/// Syncs a file's bytes, or the names of a folder, which opens for reading as a file does.
pub fn sync<R: Files>(rt: &R, text: &str) -> Result<(), Fault> {
    let opened = File::open(rt, text)?;
    opened.sync_all()?;
    Ok(())
}
