//! The attributes of a folder: the bytes of the file `.ost-folder` inside it, or its absence.
ghost use Rattle.std.specs.Prelude.{◌≡◌, ◌↔◌, [], Some, IfOk, IsTrue};
ghost use Rattle.ost_types.specs.Mode.{IsFolderMode};
ghost use Rattle.ost_forms.specs.DirMeta.{dirmeta_form, ReadsDirMeta};

use ost_forms::{DirMeta, ObjFault, read_dirmeta, write_dirmeta};
use ost_types::{Bytes, Meta, NoMemory, TryCopy, Xattrs};
use std::alloc::Global;

/// The mode of a folder without that file.
const PLAIN_MODE: u32 = 0o040755;

/// The attributes of a folder without that file.
pub fn plain_attributes(alloc: Global) -> Meta
    ensures { result ≡ record { uid = 0; gid = 0; mode = 16877; xattrs = [] } }
{
    Meta {
        uid: 0,
        gid: 0,
        mode: PLAIN_MODE,
        xattrs: Xattrs::new(alloc),
    }
}

/// Whether a folder with these attributes needs no such file.
pub fn is_plain(meta: &Meta) -> bool
    ensures { IsTrue result ↔ (meta.now ≡ record { uid = 0; gid = 0; mode = 16877; xattrs = [] }) }
{
    meta.uid == 0 && meta.gid == 0 && meta.mode == PLAIN_MODE && meta.xattrs.as_slice().is_empty()
}

/// The attributes that these bytes are.
pub fn read_attributes(alloc: Global, bytes: &[u8]) -> Result<Meta, ObjFault>
    ensures { ReadsDirMeta (λ m. m) bytes.now result }
{
    match read_dirmeta(alloc, bytes) {
        Ok(DirMeta { meta }) => Ok(meta),
        Err(fault) => Err(fault),
    }
}

/// The bytes of these attributes.
pub fn attributes_bytes(alloc: Global, meta: &Meta) -> Result<Bytes, NoMemory>
    requires { IsFolderMode meta.now.mode }
    ensures { IfOk result (λ b. dirmeta_form meta.now ≡ Some b) }
{
    write_dirmeta(alloc, &DirMeta { meta: meta.copy()? })
}
