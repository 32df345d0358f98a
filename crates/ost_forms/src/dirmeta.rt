//! The attributes of a folder as an object.

ghost use Rattle.std.specs.Prelude.{◌≡◌, ◌≤◌, ◌<◌, Some, IfOk};
ghost use Rattle.ost_types.specs.Mode.{IsFolderMode};
ghost use Rattle.ost_forms.specs.Finds.{Finds};
ghost use Rattle.ost_forms.specs.DirMeta.{object_limit, dirmeta_form, ReadsDirMeta};

use crate::fault::ObjFault;
use crate::number::number_32;
use crate::object_type::ObjectType;
use crate::pieces::{container, members};
use crate::xattrs::{read_xattrs, write_xattrs};
use ost_types::{Bytes, Meta, NoMemory, is_folder_mode};
use std::alloc::Global;

/// The most bytes of an object that isn't a file.
pub const OBJECT_LIMIT: usize = 67_108_864;

/// The attributes of a folder.
#[derive(Drop, Debug)]
pub struct DirMeta {
    pub meta: Meta,
    ghost folder: { ∥ IsFolderMode meta.mode ∥₁ },
}

/// The attributes whose object these bytes are.
pub fn read_dirmeta(alloc: Global, bytes: &[u8]) -> Result<DirMeta, ObjFault>
    ensures { ReadsDirMeta (λ d. d.meta) bytes.now result }
{
    if bytes.len() > OBJECT_LIMIT {
        return Err(ObjFault::TooLarge(bytes.len() as u64));
    }
    let meta = read_meta(alloc, bytes)?;
    if !is_folder_mode(meta.mode) {
        return Err(ObjFault::BadMode);
    }
    Ok(DirMeta { meta })
}

fn read_meta(alloc: Global, bytes: &[u8]) -> Result<Meta, ObjFault>
    ensures { Finds (λ m. m) dirmeta_form bytes.now result }
{
    let kind = ObjectType::DirMeta.kind(alloc)?;
    let parts = members(alloc, &kind, bytes)?;
    let count = parts.len();
    prove!(count == 4);
    Ok(Meta {
        uid: number_32(parts[0]),
        gid: number_32(parts[1]),
        mode: number_32(parts[2]),
        xattrs: read_xattrs(alloc, parts[3])?,
    })
}

/// The object of these attributes.
pub fn write_dirmeta(alloc: Global, value: &DirMeta) -> Result<Bytes, NoMemory>
    ensures { IfOk result (λ b. dirmeta_form value.now.meta ≡ Some b) }
{
    let meta = &value.meta;
    let kind = ObjectType::DirMeta.kind(alloc)?;
    let xattrs = write_xattrs(alloc, meta.xattrs.as_slice())?;
    let bytes = container(
        alloc,
        &kind,
        &[
            &meta.uid.to_be_bytes(),
            &meta.gid.to_be_bytes(),
            &meta.mode.to_be_bytes(),
            xattrs.as_slice(),
        ],
    )?;
    Bytes::from_slice(alloc, bytes.as_slice())
}
