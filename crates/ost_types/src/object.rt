ghost use Rattle.std.specs.Prelude.{◌≡◌, IfOk};

use crate::{Csum, NoMemory, TryCopy};

/// What an object of a repository is (OSTree manual, "Anatomy of an OSTree repository").
#[derive(Clone, Copy, Debug, PartialEq, Eq, PartialOrd, Ord)]
pub enum Kind {
    Commit,
    DirTree,
    DirMeta,
    File,
}

// The order of the fields is the order of names: by the sum, then by the kind.
/// The name of an object: its kind and the SHA-256 of its bytes.
#[derive(Clone, Copy, Debug, PartialEq, Eq, PartialOrd, Ord)]
pub struct ObjName {
    pub csum: Csum,
    pub kind: Kind,
}

impl TryCopy for ObjName {
    fn copy(&self) -> Result<ObjName, NoMemory> {
        Ok(*self)
    }
}
