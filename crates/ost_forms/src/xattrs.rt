//! Extended attributes, as objects keep them.

ghost use Rattle.std.specs.Prelude.{◌≡◌, Some, IfOk};
ghost use Rattle.ost_forms.specs.declared.object_type.ObjectType.TheVariants as types;
ghost use Rattle.ost_forms.specs.TypeText.{type_text};
ghost use Rattle.ost_forms.specs.Finds.{Finds};
ghost use Rattle.ost_forms.specs.Rows.{each, xattr_form, xattrs_form};

use crate::fault::ObjFault;
use crate::object_type::ObjectType;
use crate::pieces::{array, container, members};
use gv_core::{GvBytes, GvKind};
use ost_types::{Bytes, NoMemory, Xattr, Xattrs};
use std::alloc::Global;

pub(crate) fn read_xattrs(alloc: Global, bytes: &[u8]) -> Result<Xattrs, ObjFault>
    ensures { Finds (λ xs. xs) xattrs_form bytes.now result }
{
    let list_kind = ObjectType::Xattrs.kind(alloc)?;
    let row_kind = ObjectType::Xattr.kind(alloc)?;
    let rows = members(alloc, &list_kind, bytes)?;
    let mut xattrs = Vec::with_capacity(alloc, rows.len())?;
    for row in &rows {
        xattrs.push(read_xattr(alloc, &row_kind, row)?)?;
    }
    Ok(Xattrs::from_vec(xattrs))
}

fn read_xattr(alloc: Global, kind: &GvKind, bytes: &[u8]) -> Result<Xattr, ObjFault>
    requires { kind.now ≡ type_text types.Xattr }
    ensures { Finds (λ x. x) xattr_form bytes.now result }
{
    let parts = members(alloc, kind, bytes)?;
    let count = parts.len();
    prove!(count == 2);
    Ok(Xattr {
        name: Bytes::from_slice(alloc, parts[0])?,
        value: Bytes::from_slice(alloc, parts[1])?,
    })
}

pub(crate) fn write_xattrs(alloc: Global, xattrs: &[Xattr]) -> Result<GvBytes, NoMemory>
    ensures { IfOk result (λ b. xattrs_form xattrs.now ≡ Some b) }
{
    let list_kind = ObjectType::Xattrs.kind(alloc)?;
    let row_kind = ObjectType::Xattr.kind(alloc)?;
    let mut rows = Vec::with_capacity(alloc, xattrs.len())?;
    for xattr in xattrs {
        rows.push(write_xattr(alloc, &row_kind, xattr)?)?;
    }
    array(alloc, &list_kind, &rows)
}

fn write_xattr(alloc: Global, kind: &GvKind, xattr: &Xattr) -> Result<GvBytes, NoMemory>
    requires { kind.now ≡ type_text types.Xattr }
    ensures { IfOk result (λ b. xattr_form xattr.now ≡ Some b) }
{
    container(
        alloc,
        kind,
        &[xattr.name.as_slice(), xattr.value.as_slice()],
    )
}
