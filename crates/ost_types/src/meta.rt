ghost use Rattle.std.specs.Prelude.{◌≡◌, IfOk};
ghost use Rattle.ost_types.specs.declared.meta.Meta.{Meta};

use crate::{Bytes, NoMemory, TryCopy, Xattrs};

/// An extended attribute.
#[derive(Drop, Debug)]
pub struct Xattr {
    pub name: Bytes,
    pub value: Bytes,
}

impl TryCopy for Xattr {
    fn copy(&self) -> Result<Xattr, NoMemory> {
        Ok(Xattr {
            name: self.name.copy()?,
            value: self.value.copy()?,
        })
    }
}

/// The attributes of a node: owner, group, mode with the bits of its type, and extended attributes.
#[derive(Drop, Debug)]
pub struct Meta {
    pub uid: u32,
    pub gid: u32,
    pub mode: u32,
    pub xattrs: Xattrs,
}

impl TryCopy for Meta {
    fn copy(&self) -> Result<Meta, NoMemory> {
        Ok(Meta {
            uid: self.uid,
            gid: self.gid,
            mode: self.mode,
            xattrs: self.xattrs.copy()?,
        })
    }
}
