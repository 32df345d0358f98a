//! Values of any type as members of a commit.

ghost use Rattle.std.specs.Prelude.{◌≡◌, Some, true, IfOk};
ghost use Rattle.std.specs.Option.{is_some};
ghost use Rattle.gv_core.specs.Layout.{normal_form};
ghost use Rattle.gv_core.specs.Tree.{Tree, view};
ghost use Rattle.ost_forms.specs.TypeText.{type_text};
ghost use Rattle.ost_forms.specs.Finds.{Finds};
ghost use Rattle.ost_forms.specs.Commit.{inner_form, only_of, IsAlone, Holds};

use crate::fault::ObjFault;
use crate::object_type::ObjectType;
use gv_core::{GvBytes, GvFault, GvKind, Value, decode, encode};
use ost_types::NoMemory;
use std::alloc::Global;

/// The value whose bytes these are. It is read as the only member of a tuple, where it has the same bytes, so that its
/// containers are counted with the one round it.
pub(crate) fn read_inner(alloc: Global, whole: ObjectType, bytes: &[u8]) -> Result<Value, ObjFault>
    requires { IsAlone whole }
    ensures { Finds view (inner_form (type_text (only_of whole))) bytes.now result }
{
    let length = bytes.len();
    prove!(length <= usize::MAX);
    let kind = whole.kind(alloc)?;
    let value = read_value(alloc, &kind, bytes)?;
    Ok(only_member(value))
}

fn read_value(alloc: Global, kind: &GvKind, bytes: &[u8]) -> Result<Value, ObjFault>
    ensures { Finds view (normal_form kind.now) bytes.now result }
{
    match decode(alloc, kind, bytes) {
        Ok(value) => Ok(value),
        Err(GvFault::NoMemory) => Err(ObjFault::NoMemory),
        Err(_) => Err(ObjFault::NotNormal),
    }
}

/// The only member of a tuple.
fn only_member(value: Value) -> Value
    requires { (member : Tree) × Holds (view value) member }
    ensures { Holds (view value) (view result) }
{
    let Value::Tuple(mut members) = value else {
        unreachable!();
    };
    match members.pop() {
        Some(member) => member,
        None => unreachable!(),
    }
}

/// The bytes of a value of the type.
pub(crate) fn write_inner(
    alloc: Global,
    member: ObjectType,
    value: &Value,
) -> Result<GvBytes, NoMemory>
    requires { is_some (inner_form (type_text member) (view value.now)) ≡ true }
    ensures { IfOk result (λ b. inner_form (type_text member) (view value.now) ≡ Some b) }
{
    let kind = member.kind(alloc)?;
    match encode(alloc, &kind, value) {
        Ok(bytes) => Ok(bytes),
        Err(_) => Err(NoMemory),
    }
}
