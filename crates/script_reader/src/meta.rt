ghost use Rattle.std.specs.Prelude.{◌≤◌, IfOk};
ghost use Rattle.script.specs.Field.{Gives};
ghost use Rattle.script_reader.specs.Nodes.{IsLinkMeta, IsMeta};

use crate::mode::read_mode;
use crate::xattrs::read_xattrs;
use ost_types::{Meta, NoMemory};
use script::read_u32;
use std::alloc::Global;

/// The attributes of a folder or a file, with the bits of its type.
pub fn read_meta(
    alloc: Global,
    type_bits: u32,
    user: &[u8],
    group: &[u8],
    mode: &[u8],
    xattrs: &[u8],
) -> Result<Option<Meta>, NoMemory>
    requires { type_bits ≤ 65535 }
    ensures { IfOk result (Gives (IsMeta type_bits user.now group.now mode.now xattrs.now)) }
{
    let Some(uid) = read_u32(alloc, user)? else {
        return Ok(None);
    };
    let Some(gid) = read_u32(alloc, group)? else {
        return Ok(None);
    };
    let Some(bits) = read_mode(alloc, mode)? else {
        return Ok(None);
    };
    match read_xattrs(alloc, xattrs)? {
        Some(xattrs) => Ok(Some(Meta {
            uid,
            gid,
            mode: type_bits + bits,
            xattrs,
        })),
        None => Ok(None),
    }
}

/// The attributes of a symbolic link.
pub fn read_link_meta(
    alloc: Global,
    user: &[u8],
    group: &[u8],
    xattrs: &[u8],
) -> Result<Option<Meta>, NoMemory>
    ensures { IfOk result (Gives (IsLinkMeta user.now group.now xattrs.now)) }
{
    let Some(uid) = read_u32(alloc, user)? else {
        return Ok(None);
    };
    let Some(gid) = read_u32(alloc, group)? else {
        return Ok(None);
    };
    match read_xattrs(alloc, xattrs)? {
        Some(xattrs) => Ok(Some(Meta {
            uid,
            gid,
            mode: 0o120777,
            xattrs,
        })),
        None => Ok(None),
    }
}
