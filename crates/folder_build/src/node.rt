use ost_types::{Bytes, FsPath, NoMemory, Text, TryCopy};

/// What is made at a path.
#[derive(Drop, Debug)]
pub enum Content {
    /// A folder, where there is none yet.
    Folder,
    /// A regular file with these bytes.
    File(Bytes),
    /// A symbolic link with this target, which isn't empty.
    Link(Text),
}

/// A node that is to be made.
#[derive(Drop, Debug)]
pub struct NewNode {
    pub at: FsPath,
    pub what: Content,
}

impl TryCopy for Content {
    fn copy(&self) -> Result<Content, NoMemory> {
        match self {
            Content::Folder => Ok(Content::Folder),
            Content::File(bytes) => Ok(Content::File(bytes.copy()?)),
            Content::Link(target) => Ok(Content::Link(target.copy()?)),
        }
    }
}

impl TryCopy for NewNode {
    fn copy(&self) -> Result<NewNode, NoMemory> {
        Ok(NewNode {
            at: self.at.copy()?,
            what: self.what.copy()?,
        })
    }
}
