use crate::{Csum, Meta, NoMemory, TryCopy};

/// What stands at a path: a folder with its attributes, or a leaf, named by the SHA-256 of its content stream.
#[derive(Drop, Debug)]
pub enum NodeName {
    Folder(Meta),
    Leaf(Csum),
}

impl TryCopy for NodeName {
    fn copy(&self) -> Result<NodeName, NoMemory> {
        match self {
            NodeName::Folder(meta) => Ok(NodeName::Folder(meta.copy()?)),
            NodeName::Leaf(csum) => Ok(NodeName::Leaf(*csum)),
        }
    }
}
