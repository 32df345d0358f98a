//! The check of bytes against a name.

ghost use Rattle.ost_objects.specs.Checks.{Checks};

use crate::checked::Checked;
use crate::fault::CheckFault;
use crate::testing::test_object;
use ost_forms::{ObjFault, sum_of};
use ost_types::{Bytes, Limits, ObjName};
use std::alloc::Global;

/// The object of this name, if the bytes have the name and read as its kind; otherwise the bytes come back.
///
/// The sum is looked at first. No byte is copied.
pub fn check(
    alloc: Global,
    name: ObjName,
    bytes: Bytes,
    limits: &Limits,
) -> Result<Checked, (Bytes, CheckFault)>
    ensures { Checks name limits.now.content bytes result }
{
    let found = sum_of(bytes.as_slice());
    if found != name.csum {
        return Err((bytes, CheckFault::WrongSum(found)));
    }
    match test_object(alloc, name.kind, bytes.as_slice(), limits) {
        Ok(()) => Ok(Checked {
            name,
            bytes,
            limit: limits.content,
        }),
        Err(ObjFault::NoMemory) => Err((bytes, CheckFault::NoMemory)),
        Err(fault) => Err((bytes, CheckFault::Unreadable(fault))),
    }
}
