//! The header of a content stream.

ghost use Rattle.std.specs.Prelude.{◌≡◌, Some, IfOk};
ghost use Rattle.ost_types.specs.Text.{IsText};
ghost use Rattle.ost_forms.specs.Finds.{Finds};
ghost use Rattle.ost_forms.specs.Stream.{header_form};

use crate::body::Header;
use crate::fault::ObjFault;
use crate::number::number_32;
use crate::object_type::ObjectType;
use crate::pieces::{container, members};
use crate::text::{bytes_of, read_text};
use crate::xattrs::{read_xattrs, write_xattrs};
use gv_core::GvBytes;
use ost_types::{Meta, NoMemory};
use std::alloc::Global;

pub(crate) fn read_header(alloc: Global, bytes: &[u8]) -> Result<Header, ObjFault>
    ensures { Finds (λ h. h) header_form bytes.now result }
{
    let kind = ObjectType::Header.kind(alloc)?;
    let parts = members(alloc, &kind, bytes)?;
    let count = parts.len();
    prove!(count == 6);
    let target = read_text(alloc, parts[4])?;
    let xattrs = read_xattrs(alloc, parts[5])?;
    Ok(Header {
        meta: Meta {
            uid: number_32(parts[0]),
            gid: number_32(parts[1]),
            mode: number_32(parts[2]),
            xattrs,
        },
        rdev: number_32(parts[3]),
        target,
    })
}

/// The header of a file with these attributes and this target, which is empty for a regular file.
pub(crate) fn write_header(alloc: Global, meta: &Meta, target: &[u8]) -> Result<GvBytes, NoMemory>
    requires { IsText target.now }
    ensures { IfOk result (λ b. header_form (record { meta = meta.now; rdev = 0; target = target.now }) ≡ Some b) }
{
    let kind = ObjectType::Header.kind(alloc)?;
    let target = bytes_of(alloc, target)?;
    let xattrs = write_xattrs(alloc, meta.xattrs.as_slice())?;
    container(
        alloc,
        &kind,
        &[
            &meta.uid.to_be_bytes(),
            &meta.gid.to_be_bytes(),
            &meta.mode.to_be_bytes(),
            &0u32.to_be_bytes(),
            &target,
            xattrs.as_slice(),
        ],
    )
}
