//! Containers cut into the bytes of their members, and made from them.

ghost use Rattle.std.specs.Prelude.{◌≡◌, List, ℕ, Some, IfOk, map};
ghost use Rattle.gv_core.specs.Container.{container_form};
ghost use Rattle.ost_forms.specs.Finds.{Finds};

use crate::fault::ObjFault;
use gv_core::{GvBytes, GvFault, GvKind, cut, join};
use ost_types::NoMemory;
use std::alloc::Global;

/// The bytes of the members of a container.
pub(crate) fn members<'a>(
    alloc: Global,
    kind: &GvKind,
    bytes: &'a [u8],
) -> Result<Vec<&'a [u8]>, ObjFault>
    ensures found { Finds (λ v. map (λ b. b.now) v.items) (container_form kind.now) bytes.now result }
    ensures own { IfOk result (λ v. (rs : List (List ℕ)) → container_form kind.now rs ≡ Some bytes.now → map (λ b. b.now) v.items ≡ rs) }
{
    match cut(alloc, kind, bytes) {
        Ok(members) => Ok(members),
        Err(GvFault::NoMemory) => Err(ObjFault::NoMemory),
        Err(_) => Err(ObjFault::NotNormal),
    }
}

/// The container with these members. No memory holds one that is too long for its offsets.
pub(crate) fn container(
    alloc: Global,
    kind: &GvKind,
    members: &[&[u8]],
) -> Result<GvBytes, NoMemory>
    ensures { IfOk result (λ b. container_form kind.now (map (λ b. b.now) members.now) ≡ Some b) }
{
    match join(alloc, kind, members) {
        Ok(Some(bytes)) => Ok(bytes),
        _ => Err(NoMemory),
    }
}

/// The array with these elements.
pub(crate) fn array(alloc: Global, kind: &GvKind, elements: &[GvBytes]) -> Result<GvBytes, NoMemory>
    ensures { IfOk result (λ b. container_form kind.now elements.now ≡ Some b) }
{
    let mut slices = Vec::with_capacity(alloc, elements.len())?;
    for element in elements {
        slices.push(element.as_slice())?;
    }
    container(alloc, kind, &slices)
}
