//! A path of a tree that is to be committed.

use ost_types::{Bytes, FsPath, Meta, NoMemory, Text, TryCopy};

/// What a path is to hold: bytes as they are given, or one byte `len` times, or a link's target.
#[derive(Drop, Debug)]
pub enum BodySpec {
    Given(Bytes),
    Fill { len: u64, byte: u8 },
    Target(Text),
}

/// A path with its attributes. A folder has no body.
#[derive(Drop, Debug)]
pub struct TreeItem {
    pub path: FsPath,
    pub meta: Meta,
    pub body: Option<BodySpec>,
}

impl TryCopy for BodySpec {
    fn copy(&self) -> Result<BodySpec, NoMemory> {
        match self {
            BodySpec::Given(bytes) => Ok(BodySpec::Given(bytes.copy()?)),
            BodySpec::Fill { len, byte } => Ok(BodySpec::Fill {
                len: *len,
                byte: *byte,
            }),
            BodySpec::Target(target) => Ok(BodySpec::Target(target.copy()?)),
        }
    }
}

impl TryCopy for TreeItem {
    fn copy(&self) -> Result<TreeItem, NoMemory> {
        let body = match &self.body {
            Some(body) => Some(body.copy()?),
            None => None,
        };
        Ok(TreeItem {
            path: self.path.copy()?,
            meta: self.meta.copy()?,
            body,
        })
    }
}
