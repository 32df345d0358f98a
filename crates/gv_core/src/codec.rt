//! A value of a kind to its bytes, and back.

ghost use Rattle.std.specs.Prelude.{◌≡◌, ◌⊎◌, Some, true, IfOk, IfErr, option_map};
ghost use Rattle.std.specs.Option.{is_some};
ghost use Rattle.gv_core.specs.declared.fault.GvFault.TheVariants.{NotNormal, NoMemory};
ghost use Rattle.gv_core.specs.Tree.{Tree, view};
ghost use Rattle.gv_core.specs.Layout.{layout, normal_form};
ghost use Rattle.gv_core.specs.Gives.{Decodes, GivesBytes, same_bytes};

use crate::fault::{GvFault, GvNoMemory};
use crate::kind::Node;
use crate::reading::decode_at;
use crate::text::GvBytes;
use crate::type_string::GvKind;
use crate::value::Value;
use crate::writing::put;
use std::alloc::Global;

/// The value of a kind whose normal form the bytes are.
///
/// The value is cut out by the offsets and then written again: bytes are refused unless they are what is written.
pub fn decode(alloc: Global, kind: &GvKind, bytes: &[u8]) -> Result<Value, GvFault>
    // What is read has these bytes as its normal form.
    ensures form { IfOk result (λ v. normal_form kind.now (view v) ≡ Some bytes.now) }
    // A value that has these bytes as its normal form is read, unless memory runs out.
    ensures only { (v : Tree) → normal_form kind.now v ≡ Some bytes.now → Decodes v result }
    ensures fault { IfErr result (λ e. (e ≡ NoMemory) ⊎ ((e ≡ NotNormal) × ((v : Tree) → normal_form kind.now v ≡ Some bytes.now → ⊥))) }
{
    let node = kind.node();
    let value = match decode_at(alloc, 64, node, bytes) {
        Ok(value) => value,
        Err(fault) => return Err(fault),
    };
    let encoded = encode_at(alloc, node, &value)?;
    if is_same(&encoded, bytes) {
        Ok(value)
    } else {
        Err(GvFault::NotNormal)
    }
}

/// The normal form of a value of a kind.
pub fn encode(alloc: Global, kind: &GvKind, value: &Value) -> Result<GvBytes, GvNoMemory>
    requires { is_some (normal_form kind.now (view value.now)) ≡ true }
    ensures form { IfOk result (λ b. normal_form kind.now (view value.now) ≡ Some b) }
    // No other value of the kind has these bytes.
    ensures own { IfOk result (λ b. (v : Tree) → normal_form kind.now v ≡ Some b → v ≡ view value.now) }
{
    match encode_at(alloc, kind.node(), value)? {
        Some(bytes) => Ok(GvBytes::new(bytes)),
        None => unreachable!(),
    }
}

fn encode_at(alloc: Global, kind: &Node, value: &Value) -> Result<Option<Vec<u8>>, GvNoMemory>
    ensures { GivesBytes (λ v. v.items) result (layout (view value.now) kind.now) }
{
    let mut out = Vec::new(alloc);
    if put(alloc, &mut out, value, kind)? {
        Ok(Some(out))
    } else {
        Ok(None)
    }
}

pub fn is_same(encoded: &Option<Vec<u8>>, bytes: &[u8]) -> bool
    ensures { result ≡ same_bytes (option_map (λ v. v.items) encoded.now) bytes.now }
{
    match encoded {
        Some(encoded) => encoded.as_slice() == bytes,
        None => false,
    }
}
