//! Whether a value has a normal form, found from lengths alone.

ghost use Rattle.std.specs.Prelude.{◌≡◌, ◌<◌, ◌≤◌, ◌+◌, ◌*◌, ◌++◌, ◌∷◌, length, option_map, option_and_then, cond, nat_le, nat_lt};
ghost use Rattle.std.specs.Option.{is_some};
ghost use Rattle.gv_core.specs.Tree.{view};
ghost use Rattle.gv_core.specs.Kind.{basic, tuple, no_kinds, variant_kind};
ghost use Rattle.gv_core.specs.Node.{kinds_of};
ghost use Rattle.gv_core.specs.Measure.{alignment, fixed, up};
ghost use Rattle.gv_core.specs.Layout.{layout, nests, nest, normal_form, offset_size, sized, just_of, array_of, tuple_of, rows, members};
ghost use Rattle.gv_core.specs.Gives.{IsLeaf, views, short};

use crate::kind::{Basic, Node, Shape};
use crate::runs::{is_end, next_member};
use crate::type_string::{DEEPEST, GvKind};
use crate::value::Value;
use crate::writing::{is_known, width_of};
use std::slice;

/// The value has a normal form as one of the kind.
pub fn fits(kind: &GvKind, value: &Value) -> bool
    ensures { result ≡ is_some (normal_form kind.now (view value.now)) }
{
    nests_within(value, DEEPEST) && length_of(value, kind.node()).is_some()
}

/// Containers nest at most `depth` deep.
#[cycle(depth)]
fn nests_within(value: &Value, depth: usize) -> bool
    ensures { result ≡ nat_le (nests (view value.now)) depth }
{
    match value {
        Value::Array(items) => all_nest_below(items, depth),
        Value::Tuple(items) => all_nest_below(items, depth),
        Value::Entry(key, item) => nests_below(key, depth) && nests_below(item, depth),
        Value::Maybe(content) => match content {
            Some(item) => nests_below(item, depth),
            None => depth > 0,
        },
        Value::Variant(_, item) => nests_below(item, depth),
        Value::Byte(_)
        | Value::Bool(_)
        | Value::I16(_)
        | Value::U16(_)
        | Value::I32(_)
        | Value::U32(_)
        | Value::I64(_)
        | Value::U64(_)
        | Value::Handle(_)
        | Value::Double(_)
        | Value::Str(_) => true,
    }
}

#[cycle(depth)]
fn nests_below(value: &Value, depth: usize) -> bool
    ensures { result ≡ nat_lt (nests (view value.now)) depth }
{
    depth > 0 && nests_within(value, depth - 1)
}

#[cycle(depth)]
fn all_nest_below(items: &[Value], depth: usize) -> bool
    ensures { result ≡ nat_lt (nest (views items.now)) depth }
{
    if depth == 0 {
        return false;
    }
    let mut left = items;
    while let Some((item, rest)) = left.split_first() {
        if !nests_within(item, depth - 1) {
            return false;
        }
        left = rest;
    }
    true
}

/// How many bytes the normal form has; None where there is none.
#[cycle(length)]
fn length_of(value: &Value, kind: &Node) -> Option<usize>
    ensures { result ≡ option_map length (layout (view value.now) kind.now) }
{
    match value {
        Value::Array(items) => match kind.shape() {
            Shape::Array(of) => array_length(items, of),
            _ => None,
        },
        Value::Tuple(items) => match kind.shape() {
            Shape::Tuple(kinds) => members_length(items, &[], kinds, &[], kind),
            _ => None,
        },
        Value::Entry(key, item) => match kind.shape() {
            Shape::Entry(basic, of) => {
                let basic = Node::basic(*basic);
                members_length(
                    slice::from_ref(key),
                    slice::from_ref(item),
                    slice::from_ref(&basic),
                    slice::from_ref(of),
                    kind,
                )
            }
            _ => None,
        },
        Value::Maybe(content) => match kind.shape() {
            Shape::Maybe(of) => match content {
                Some(item) => just_length(item, of),
                None => Some(0),
            },
            _ => None,
        },
        Value::Variant(of, item) => match kind.shape() {
            Shape::Variant => variant_length(item, of),
            _ => None,
        },
        Value::Byte(_)
        | Value::Bool(_)
        | Value::I16(_)
        | Value::U16(_)
        | Value::I32(_)
        | Value::U32(_)
        | Value::I64(_)
        | Value::U64(_)
        | Value::Handle(_)
        | Value::Double(_)
        | Value::Str(_) => leaf_length(value, kind),
    }
}

fn leaf_length(value: &Value, kind: &Node) -> Option<usize>
    requires { IsLeaf (view value.now) }
    ensures { result ≡ option_map length (layout (view value.now) kind.now) }
{
    match kind.shape() {
        Shape::Basic(basic) => basic_length(*basic, value),
        _ => None,
    }
}

#[tactic(auto, unfolding(crate::specs::Layout::layout))]
fn basic_length(kind: Basic, value: &Value) -> Option<usize>
    ensures { result ≡ option_map length (layout (view value.now) (basic kind)) }
{
    match value {
        Value::Byte(n) => match kind {
            Basic::Byte => Some(n.to_le_bytes().len()),
            _ => None,
        },
        Value::Bool(_) => match kind {
            Basic::Bool => Some(1),
            _ => None,
        },
        Value::I16(n) => match kind {
            Basic::I16 => Some(n.to_le_bytes().len()),
            _ => None,
        },
        Value::U16(n) => match kind {
            Basic::U16 => Some(n.to_le_bytes().len()),
            _ => None,
        },
        Value::I32(n) => match kind {
            Basic::I32 => Some(n.to_le_bytes().len()),
            _ => None,
        },
        Value::U32(n) => match kind {
            Basic::U32 => Some(n.to_le_bytes().len()),
            _ => None,
        },
        Value::I64(n) => match kind {
            Basic::I64 => Some(n.to_le_bytes().len()),
            _ => None,
        },
        Value::U64(n) => match kind {
            Basic::U64 => Some(n.to_le_bytes().len()),
            _ => None,
        },
        Value::Handle(n) => match kind {
            Basic::Handle => Some(n.to_le_bytes().len()),
            _ => None,
        },
        Value::Double(bytes) => match kind {
            Basic::Double => {
                let bytes: &[u8] = bytes;
                Some(bytes.len())
            }
            _ => None,
        },
        Value::Str(text) => match kind {
            Basic::Text | Basic::Path | Basic::Signature => Some(text.as_slice().len() + 1),
            _ => None,
        },
        Value::Array(_) => None,
        Value::Tuple(_) => None,
        Value::Entry(_, _) => None,
        Value::Maybe(None) => None,
        Value::Maybe(Some(_)) => None,
        Value::Variant(_, _) => None,
    }
}

#[cycle(length)]
fn just_length(item: &Value, kind: &Node) -> Option<usize>
    ensures { result ≡ option_map length (option_and_then (λ r. sized (just_of (is_some (fixed kind.now)) r)) (layout (view item.now) kind.now)) }
{
    let len = length_of(item, kind)?;
    if kind.size().is_some() {
        Some(len)
    } else {
        len.checked_add(1)
    }
}

#[cycle(length)]
fn variant_length(item: &Value, kind: &GvKind) -> Option<usize>
    ensures { result ≡ option_map length (option_and_then (λ e. option_and_then (λ r. sized (r ++ 0 ∷ kind.now)) (layout (view item.now) e)) (variant_kind kind.now)) }
{
    let len = length_of(item, kind.node())?;
    len.checked_add(kind.text().len() + 1)
}

/// Where a member of `len` bytes ends that comes behind `end`.
fn end_behind(end: usize, align: usize, len: usize) -> Option<usize>
    requires positive { 0 < align }
    requires small { align ≤ 8 }
    ensures { result ≡ short (up align end + len) }
{
    let gap = (align - end % align) % align;
    let start = end.checked_add(gap)?;
    start.checked_add(len)
}

/// The length with so many offsets.
fn with_offsets(len: usize, count: usize) -> Option<usize>
    ensures { result ≡ option_map (λ s. len + s * count) (offset_size len count) }
{
    let width = width_of(len, count)?;
    Some(len + width * count)
}

#[cycle(length)]
fn array_length(items: &[Value], kind: &Node) -> Option<usize>
    ensures { result ≡ option_map length (option_and_then (array_of kind.now) (rows (views items.now) kind.now)) }
{
    let mut end = 0;
    let mut left = items;
    while let Some((item, rest)) = left.split_first() {
        let len = length_of(item, kind)?;
        end = end_behind(end, kind.align(), len)?;
        left = rest;
    }
    if kind.size().is_some() {
        Some(end)
    } else {
        with_offsets(end, items.len())
    }
}

/// Without its offset if the end of a member is known, else with it.
fn offsets_of(known: bool) -> usize
    ensures { result ≡ cond known 0 1 }
{
    if known { 0 } else { 1 }
}

#[cycle(length)]
fn members_length(
    items: &[Value],
    more_items: &[Value],
    kinds: &[Node],
    more_kinds: &[Node],
    whole: &Node,
) -> Option<usize>
    requires align { alignment whole.now ≡ alignment (tuple (kinds_of (kinds.now ++ more_kinds.now))) }
    requires size { fixed whole.now ≡ fixed (tuple (kinds_of (kinds.now ++ more_kinds.now))) }
    ensures { result ≡ option_map length (option_and_then tuple_of (members (views (items.now ++ more_items.now)) (kinds_of (kinds.now ++ more_kinds.now)))) }
{
    if is_end(kinds, more_kinds) {
        return unit_length(items, more_items);
    }
    let mut end = 0;
    let mut count: usize = 0;
    let mut items_left = items;
    let mut more_items_left = more_items;
    let mut kinds_left = kinds;
    let mut more_kinds_left = more_kinds;
    while let Some((kind, kinds_rest, more_kinds_rest)) = next_member(kinds_left, more_kinds_left) {
        let Some((item, items_rest, more_items_rest)) = next_member(items_left, more_items_left)
        else {
            return None;
        };
        let len = length_of(item, kind)?;
        end = end_behind(end, kind.align(), len)?;
        count += offsets_of(is_known(kind, is_end(kinds_rest, more_kinds_rest)));
        items_left = items_rest;
        more_items_left = more_items_rest;
        kinds_left = kinds_rest;
        more_kinds_left = more_kinds_rest;
    }
    if !is_end(items_left, more_items_left) {
        return None;
    }
    if whole.size().is_some() {
        end_behind(end, whole.align(), 0)
    } else {
        with_offsets(end, count)
    }
}

fn unit_length(items: &[Value], more_items: &[Value]) -> Option<usize>
    ensures { result ≡ option_map length (option_and_then tuple_of (members (views (items.now ++ more_items.now)) no_kinds)) }
{
    if is_end(items, more_items) {
        Some(1)
    } else {
        None
    }
}
