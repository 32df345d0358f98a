//! Values to bytes.

ghost use Rattle.std.specs.Prelude.{◌≡◌, ◌<◌, ◌≤◌, ◌+◌, ◌-◌, ◌^◌, ◌++◌, length, replicate, option_map, suc, Ok, Err, OnOk, List, ℕ, [], ◌∷◌, cond, option_and_then, ◌||◌};
ghost use Rattle.std.specs.Option.{is_some};
ghost use Rattle.gv_core.specs.Tree.{view};
ghost use Rattle.gv_core.specs.Kind.{basic, tuple, no_kinds, variant_kind};
ghost use Rattle.gv_core.specs.Node.{kinds_of};
ghost use Rattle.gv_core.specs.Measure.{gap, alignment, fixed};
ghost use Rattle.gv_core.specs.Layout.{layout, le, offset_size, table, table_back, sized, just_of, array_of, tuple_of, rows, members};
ghost use Rattle.gv_core.specs.Gives.{Puts, IsLeaf, with_table, with_table_back, padded_to, views};

use crate::fault::GvNoMemory;
use crate::kind::{Basic, Node, Shape};
use crate::runs::{is_end, next_member};
use crate::type_string::GvKind;
use crate::value::Value;
use std::alloc::Global;
use std::slice;

/// Zero bytes up to a multiple of `align`, counted from `start`.
pub fn pad(out: &mut Vec<u8>, start: usize, align: usize) -> Result<(), GvNoMemory>
    requires positive { 0 < align }
    requires small { align ≤ 8 }
    requires begun { start ≤ length out.old.items }
    ensures { OnOk result (out.new.items ≡ out.old.items ++ (replicate (gap align (length out.old.items - start)) 0)) }
{
    let gap = (align - (out.len() - start) % align) % align;
    for _ in 0..gap {
        out.push(0)?;
    }
    Ok(())
}

/// The low bytes of a number.
fn put_number(out: &mut Vec<u8>, n: usize, width: usize) -> Result<(), GvNoMemory>
    ensures { OnOk result (out.new.items ≡ out.old.items ++ (le width n)) }
{
    let mut left = n;
    for _ in 0..width {
        out.push((left % 256) as u8)?;
        left /= 256;
    }
    Ok(())
}

/// The least size of an offset in a container of so many bytes and offsets.
#[tactic(auto, unfolding(crate::specs::Layout::offset_size))]
pub fn width_of(len: usize, count: usize) -> Option<usize>
    ensures { result ≡ offset_size len count }
{
    if len.saturating_add(count) < 1 << 8 {
        Some(1)
    } else if len.saturating_add(count.saturating_mul(2)) < 1 << 16 {
        Some(2)
    } else if len.saturating_add(count.saturating_mul(4)) < 1 << 32 {
        Some(4)
    } else {
        match count.checked_mul(8) {
            Some(table) => match len.checked_add(table) {
                Some(_) => Some(8),
                None => None,
            },
            None => None,
        }
    }
}

/// Offsets in order.
fn put_table(out: &mut Vec<u8>, ends: &[usize], width: usize) -> Result<(), GvNoMemory>
    ensures { OnOk result (out.new.items ≡ out.old.items ++ (table width ends.now)) }
{
    let mut left = ends;
    while let Some((end, rest)) = left.split_first() {
        put_number(out, *end, width)?;
        left = rest;
    }
    Ok(())
}

/// Where the member ends is known without an offset.
pub fn is_known(kind: &Node, last: bool) -> bool
    ensures { result ≡ (is_some (fixed kind.now) || last) }
{
    kind.size().is_some() || last
}

/// The end of a member is kept unless it is known without an offset.
pub fn note_end(ends: &mut Vec<usize>, known: bool, end: usize) -> Result<(), GvNoMemory>
    ensures { OnOk result (ends.new.items ≡ cond known ends.old.items (ends.old.items ++ end ∷ [])) }
{
    if !known {
        ends.push(end)?;
    }
    Ok(())
}

/// The offsets behind the elements that stand from `start` on.
pub fn finish_array(
    out: &mut Vec<u8>,
    start: usize,
    fixed: bool,
    ends: &[usize],
) -> Result<bool, GvNoMemory>
    requires { start ≤ length out.old.items }
    ensures { (old elements : List ℕ) → out.old.items ≡ old ++ elements → length old ≡ start
        → Puts old out.new.items result (cond fixed (sized elements) (with_table elements ends.now)) }
{
    if fixed {
        return Ok(true);
    }
    let Some(width) = width_of(out.len() - start, ends.len()) else {
        return Ok(false);
    };
    put_table(out, ends, width)?;
    Ok(true)
}

/// Offsets in reverse order.
fn put_table_back(out: &mut Vec<u8>, ends: &[usize], width: usize) -> Result<(), GvNoMemory>
    ensures { OnOk result (out.new.items ≡ out.old.items ++ table_back width ends.now) }
{
    let mut left = ends;
    while let Some((end, rest)) = left.split_last() {
        put_number(out, *end, width)?;
        left = rest;
    }
    Ok(())
}

/// The offsets behind the members that stand from `start` on, or the padding where all have a fixed size.
pub fn finish_tuple(
    out: &mut Vec<u8>,
    start: usize,
    fixed: bool,
    align: usize,
    ends: &[usize],
) -> Result<bool, GvNoMemory>
    requires positive { 0 < align }
    requires small { align ≤ 8 }
    requires begun { start ≤ length out.old.items }
    ensures { (old members : List ℕ) → out.old.items ≡ old ++ members → length old ≡ start
        → Puts old out.new.items result (cond fixed (sized (padded_to align members)) (with_table_back members ends.now)) }
{
    if fixed {
        pad(out, start, align)?;
        return Ok(true);
    }
    let Some(width) = width_of(out.len() - start, ends.len()) else {
        return Ok(false);
    };
    put_table_back(out, ends, width)?;
    Ok(true)
}

/// Puts the normal form behind `out`, or answers false where there is none; `out` then ends with a part of it.
#[cycle(put)]
pub fn put(alloc: Global, out: &mut Vec<u8>, value: &Value, kind: &Node) -> Result<bool, GvNoMemory>
    ensures { Puts out.old.items out.new.items result (layout (view value.now) kind.now) }
{
    match value {
        Value::Array(items) => match kind.shape() {
            Shape::Array(of) => put_array(alloc, out, items, of),
            _ => Ok(false),
        },
        Value::Tuple(items) => match kind.shape() {
            Shape::Tuple(kinds) => put_members(alloc, out, items, &[], kinds, &[], kind),
            _ => Ok(false),
        },
        Value::Entry(key, item) => match kind.shape() {
            Shape::Entry(basic, of) => {
                let basic = Node::basic(*basic);
                put_members(
                    alloc,
                    out,
                    slice::from_ref(key),
                    slice::from_ref(item),
                    slice::from_ref(&basic),
                    slice::from_ref(of),
                    kind,
                )
            }
            _ => Ok(false),
        },
        Value::Maybe(content) => match kind.shape() {
            Shape::Maybe(of) => match content {
                Some(item) => put_just(alloc, out, item, of),
                None => Ok(true),
            },
            _ => Ok(false),
        },
        Value::Variant(of, item) => match kind.shape() {
            Shape::Variant => put_variant(alloc, out, item, of),
            _ => Ok(false),
        },
        Value::Byte(_)
        | Value::Bool(_)
        | Value::I16(_)
        | Value::U16(_)
        | Value::I32(_)
        | Value::U32(_)
        | Value::I64(_)
        | Value::U64(_)
        | Value::Handle(_)
        | Value::Double(_)
        | Value::Str(_) => put_leaf(out, value, kind),
    }
}

fn put_leaf(out: &mut Vec<u8>, value: &Value, kind: &Node) -> Result<bool, GvNoMemory>
    requires { IsLeaf (view value.now) }
    ensures { Puts out.old.items out.new.items result (layout (view value.now) kind.now) }
{
    match kind.shape() {
        Shape::Basic(basic) => put_basic(out, *basic, value),
        _ => Ok(false),
    }
}

#[cycle(put)]
fn put_just(alloc: Global, out: &mut Vec<u8>, item: &Value, kind: &Node) -> Result<bool, GvNoMemory>
    ensures { Puts out.old.items out.new.items result (option_and_then (λ r. sized (just_of (is_some (fixed kind.now)) r)) (layout (view item.now) kind.now)) }
{
    if !put(alloc, out, item, kind)? {
        return Ok(false);
    }
    if kind.size().is_none() {
        out.push(0)?;
    }
    Ok(true)
}

#[cycle(put)]
fn put_variant(
    alloc: Global,
    out: &mut Vec<u8>,
    item: &Value,
    kind: &GvKind,
) -> Result<bool, GvNoMemory>
    ensures { Puts out.old.items out.new.items result (option_and_then (λ e. option_and_then (λ r. sized (r ++ 0 ∷ kind.now)) (layout (view item.now) e)) (variant_kind kind.now)) }
{
    if !put(alloc, out, item, kind.node())? {
        return Ok(false);
    }
    out.push(0)?;
    out.extend_from_slice(kind.text())?;
    Ok(true)
}

#[cycle(put)]
fn put_array(
    alloc: Global,
    out: &mut Vec<u8>,
    items: &[Value],
    kind: &Node,
) -> Result<bool, GvNoMemory>
    ensures { Puts out.old.items out.new.items result (option_and_then (array_of kind.now) (rows (views items.now) kind.now)) }
{
    let start = out.len();
    let fixed = kind.size().is_some();
    let mut ends: Vec<usize> = Vec::new(alloc);
    let mut left = items;
    while let Some((item, rest)) = left.split_first() {
        pad(out, start, kind.align())?;
        if !put(alloc, out, item, kind)? {
            return Ok(false);
        }
        note_end(&mut ends, fixed, out.len() - start)?;
        left = rest;
    }
    finish_array(out, start, fixed, &ends)
}

/// Puts the members of a tuple or a dictionary entry, which lie in two runs.
#[cycle(put)]
fn put_members(
    alloc: Global,
    out: &mut Vec<u8>,
    items: &[Value],
    more_items: &[Value],
    kinds: &[Node],
    more_kinds: &[Node],
    whole: &Node,
) -> Result<bool, GvNoMemory>
    requires align { alignment whole.now ≡ alignment (tuple (kinds_of (kinds.now ++ more_kinds.now))) }
    requires size { fixed whole.now ≡ fixed (tuple (kinds_of (kinds.now ++ more_kinds.now))) }
    ensures { Puts out.old.items out.new.items result (option_and_then tuple_of (members (views (items.now ++ more_items.now)) (kinds_of (kinds.now ++ more_kinds.now)))) }
{
    if is_end(kinds, more_kinds) {
        return put_unit(out, items, more_items);
    }
    let start = out.len();
    let mut ends: Vec<usize> = Vec::new(alloc);
    let mut items_left = items;
    let mut more_items_left = more_items;
    let mut kinds_left = kinds;
    let mut more_kinds_left = more_kinds;
    while let Some((kind, kinds_rest, more_kinds_rest)) = next_member(kinds_left, more_kinds_left) {
        let Some((item, items_rest, more_items_rest)) = next_member(items_left, more_items_left)
        else {
            return Ok(false);
        };
        pad(out, start, kind.align())?;
        if !put(alloc, out, item, kind)? {
            return Ok(false);
        }
        let known = is_known(kind, is_end(kinds_rest, more_kinds_rest));
        note_end(&mut ends, known, out.len() - start)?;
        items_left = items_rest;
        more_items_left = more_items_rest;
        kinds_left = kinds_rest;
        more_kinds_left = more_kinds_rest;
    }
    if !is_end(items_left, more_items_left) {
        return Ok(false);
    }
    finish_tuple(out, start, whole.size().is_some(), whole.align(), &ends)
}

/// Puts the tuple without members, which is a zero byte.
fn put_unit(out: &mut Vec<u8>, items: &[Value], more_items: &[Value]) -> Result<bool, GvNoMemory>
    ensures { Puts out.old.items out.new.items result (option_and_then tuple_of (members (views (items.now ++ more_items.now)) no_kinds)) }
{
    if !is_end(items, more_items) {
        return Ok(false);
    }
    out.push(0)?;
    Ok(true)
}

#[tactic(auto, unfolding(crate::specs::Layout::layout))]
fn put_basic(out: &mut Vec<u8>, kind: Basic, value: &Value) -> Result<bool, GvNoMemory>
    ensures { Puts out.old.items out.new.items result (layout (view value.now) (basic kind)) }
{
    match value {
        Value::Byte(n) => match kind {
            Basic::Byte => {
                out.push(*n)?;
                Ok(true)
            }
            _ => Ok(false),
        },
        Value::Bool(b) => match kind {
            Basic::Bool => {
                out.push(if *b { 1 } else { 0 })?;
                Ok(true)
            }
            _ => Ok(false),
        },
        Value::I16(n) => match kind {
            Basic::I16 => {
                out.extend_from_slice(&n.to_le_bytes())?;
                Ok(true)
            }
            _ => Ok(false),
        },
        Value::U16(n) => match kind {
            Basic::U16 => {
                out.extend_from_slice(&n.to_le_bytes())?;
                Ok(true)
            }
            _ => Ok(false),
        },
        Value::I32(n) => match kind {
            Basic::I32 => {
                out.extend_from_slice(&n.to_le_bytes())?;
                Ok(true)
            }
            _ => Ok(false),
        },
        Value::U32(n) => match kind {
            Basic::U32 => {
                out.extend_from_slice(&n.to_le_bytes())?;
                Ok(true)
            }
            _ => Ok(false),
        },
        Value::I64(n) => match kind {
            Basic::I64 => {
                out.extend_from_slice(&n.to_le_bytes())?;
                Ok(true)
            }
            _ => Ok(false),
        },
        Value::U64(n) => match kind {
            Basic::U64 => {
                out.extend_from_slice(&n.to_le_bytes())?;
                Ok(true)
            }
            _ => Ok(false),
        },
        Value::Handle(n) => match kind {
            Basic::Handle => {
                out.extend_from_slice(&n.to_le_bytes())?;
                Ok(true)
            }
            _ => Ok(false),
        },
        Value::Double(d) => match kind {
            Basic::Double => {
                out.extend_from_slice(d)?;
                Ok(true)
            }
            _ => Ok(false),
        },
        Value::Str(s) => match kind {
            Basic::Text | Basic::Path | Basic::Signature => {
                out.extend_from_slice(s.as_slice())?;
                out.push(0)?;
                Ok(true)
            }
            _ => Ok(false),
        },
        Value::Array(_) => Ok(false),
        Value::Tuple(_) => Ok(false),
        Value::Entry(_, _) => Ok(false),
        Value::Maybe(None) => Ok(false),
        Value::Maybe(Some(_)) => Ok(false),
        Value::Variant(_, _) => Ok(false),
    }
}
