//! What a file is.

use ost_types::{Bytes, Meta, Text};

/// What a file holds, or where a symbolic link leads.
#[derive(Drop, Debug)]
pub enum Body {
    Regular(Bytes),
    Symlink(Text),
}

/// The header of a content stream. A file's has the device number 0.
#[derive(Drop, Debug)]
pub(crate) struct Header {
    pub(crate) meta: Meta,
    pub(crate) rdev: u32,
    pub(crate) target: Text,
}
