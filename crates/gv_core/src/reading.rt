//! Bytes are cut into a value by their offsets. What is cut here is a candidate: padding, the size of offsets and
//! the forms of booleans and zero bytes are not looked at.

ghost use Rattle.std.specs.Prelude.{◌≡◌, ◌<◌, ◌≤◌, ◌+◌, ◌-◌, ◌*◌, ◌^◌, ◌++◌, length, option_map, cond, suc, nat_le, ◌&&◌, false, None, Some, map, List, ℕ, MatchOption, true};
ghost use Rattle.std.specs.Option.{is_some};
ghost use Rattle.gv_core.specs.Kind.{basic};
ghost use Rattle.gv_core.specs.Tree.{view, leaf, str, byte, trees_of};
ghost use Rattle.gv_core.specs.Measure.{alignment, fixed, up};
ghost use Rattle.gv_core.specs.Node.{kinds_of, capped};
ghost use Rattle.gv_core.specs.Reading.{front, from_le, size_for, inner, elements, framed, tuple_at, leaf_at, text_at, maybe_at, variant_at, entry_at, split_last, as_pair, parse};
ghost use Rattle.gv_core.specs.Gives.{Gives, views, IsWidth, place, good_place};

use crate::fault::GvFault;
use crate::kind::{Basic, Node, Shape};
use crate::runs::{is_end, next_member};
use crate::text::GvText;
use crate::type_string::{Parsed, read_type_string};
use crate::value::Value;
use std::alloc::Global;
use std::slice;

/// The next multiple of `align`.
pub fn round_up(pos: usize, align: usize) -> usize
    requires positive { 0 < align }
    requires small { align ≤ 8 }
    requires room { pos < 2 ^ 63 }
    ensures { result ≡ up align pos }
{
    pos + (align - pos % align) % align
}

/// The size of an offset in a container of `len` bytes.
pub fn width_for(len: usize) -> usize
    ensures value { result ≡ size_for len }
    ensures width { IsWidth result }
    ensures short { 0 < len → result ≤ len }
{
    if len < 1 << 8 {
        1
    } else if len < 1 << 16 {
        2
    } else if len < 1 << 32 {
        4
    } else {
        8
    }
}

/// An offset.
pub fn number(bytes: &[u8]) -> usize
    requires { IsWidth (length bytes.now) }
    ensures { result ≡ from_le bytes.now }
{
    match bytes {
        [a] => *a as usize,
        [a, b] => *a as usize + 256 * (*b as usize),
        [a, b, c, d] => {
            *a as usize + 256 * (*b as usize + 256 * (*c as usize + 256 * (*d as usize)))
        }
        [a, b, c, d, e, f, g, h] => {
            let high = *e as usize
                + 256 * (*f as usize + 256 * (*g as usize + 256 * (*h as usize)));
            *a as usize
                + 256 * (*b as usize + 256 * (*c as usize + 256 * (*d as usize + 256 * high)))
        }
        _ => unreachable!(),
    }
}

/// How many of the members have an offset.
#[tactic(auto, unfolding(crate::specs::Reading::inner))]
pub fn inner_count(front: &[Node], back: &[Node]) -> usize
    ensures { result ≡ inner (kinds_of (front.now ++ back.now)) }
{
    let mut count = 0;
    let mut front_left = front;
    let mut back_left = back;
    while let Some((member, front_rest, back_rest)) = next_member(front_left, back_left) {
        if !is_end(front_rest, back_rest) && member.size().is_none() {
            count += 1;
        }
        front_left = front_rest;
        back_left = back_rest;
    }
    count
}

/// Where a member ends, and how far the table of offsets is then used.
pub fn member_end(
    member: &Node,
    last: bool,
    start: usize,
    limit: usize,
    bytes: &[u8],
    table: usize,
    width: usize,
) -> Option<(usize, usize)>
    requires width { IsWidth width }
    requires limit { limit ≤ length bytes.now }
    requires table { table ≤ length bytes.now }
    requires room { fixed member.now ≡ None → last ≡ false → width ≤ table }
    ensures { result ≡ good_place start limit (place (fixed member.now) last start limit bytes.now table width) }
{
    if start > limit {
        return None;
    }
    let (end, rest) = match member.size() {
        Some(size) => {
            if size > limit - start {
                return None;
            }
            (start + size, table)
        }
        None if last => (limit, table),
        None => (number(&bytes[table - width..][..width]), table - width),
    };
    if start <= end && end <= limit {
        Some((end, rest))
    } else {
        None
    }
}

pub fn has_room(start: usize, size: usize, limit: usize) -> bool
    ensures { result ≡ nat_le (start + size) limit }
{
    start <= limit && size <= limit - start
}

pub fn is_piece(start: usize, end: usize, limit: usize) -> bool
    ensures { result ≡ (nat_le start end && nat_le end limit) }
{
    start <= end && end <= limit
}

/// The text in front of the last byte, which is zero.
fn text_of(alloc: Global, bytes: &[u8]) -> Result<GvText, GvFault>
    ensures { Gives (λ s. str s) result (text_at bytes.now) }
{
    let [front @ .., _] = bytes else {
        return Err(GvFault::NotNormal);
    };
    match GvText::parse(alloc, front)? {
        Some(text) => Ok(text),
        None => Err(GvFault::NotNormal),
    }
}

fn decode_basic(alloc: Global, basic: Basic, bytes: &[u8]) -> Result<Value, GvFault>
    ensures { Gives view result (option_map leaf (leaf_at basic bytes.now)) }
{
    match basic {
        Basic::Byte => match bytes {
            [a] => Ok(Value::Byte(*a)),
            _ => Err(GvFault::NotNormal),
        },
        Basic::Bool => match bytes {
            [a] => Ok(Value::Bool(*a == 1)),
            _ => Err(GvFault::NotNormal),
        },
        Basic::I16 => match bytes {
            [a, b] => Ok(Value::I16(i16::from_le_bytes([*a, *b]))),
            _ => Err(GvFault::NotNormal),
        },
        Basic::U16 => match bytes {
            [a, b] => Ok(Value::U16(u16::from_le_bytes([*a, *b]))),
            _ => Err(GvFault::NotNormal),
        },
        Basic::I32 => match bytes {
            [a, b, c, d] => Ok(Value::I32(i32::from_le_bytes([*a, *b, *c, *d]))),
            _ => Err(GvFault::NotNormal),
        },
        Basic::U32 => match bytes {
            [a, b, c, d] => Ok(Value::U32(u32::from_le_bytes([*a, *b, *c, *d]))),
            _ => Err(GvFault::NotNormal),
        },
        Basic::Handle => match bytes {
            [a, b, c, d] => Ok(Value::Handle(i32::from_le_bytes([*a, *b, *c, *d]))),
            _ => Err(GvFault::NotNormal),
        },
        Basic::I64 => match bytes {
            [a, b, c, d, e, f, g, h] => Ok(Value::I64(i64::from_le_bytes([
                *a, *b, *c, *d, *e, *f, *g, *h,
            ]))),
            _ => Err(GvFault::NotNormal),
        },
        Basic::U64 => match bytes {
            [a, b, c, d, e, f, g, h] => Ok(Value::U64(u64::from_le_bytes([
                *a, *b, *c, *d, *e, *f, *g, *h,
            ]))),
            _ => Err(GvFault::NotNormal),
        },
        Basic::Double => match bytes {
            [a, b, c, d, e, f, g, h] => Ok(Value::Double([*a, *b, *c, *d, *e, *f, *g, *h])),
            _ => Err(GvFault::NotNormal),
        },
        Basic::Text | Basic::Path | Basic::Signature => Ok(Value::Str(text_of(alloc, bytes)?)),
    }
}

/// A value without a container.
fn decode_flat(alloc: Global, kind: &Node, bytes: &[u8]) -> Result<Value, GvFault>
    ensures { Gives view result (parse 0 kind.now bytes.now) }
{
    match kind.shape() {
        Shape::Basic(basic) => decode_basic(alloc, *basic, bytes),
        _ => Err(GvFault::NotNormal),
    }
}

/// A value whose containers nest at most `depth` deep.
#[cycle(decode)]
pub fn decode_at(alloc: Global, depth: usize, kind: &Node, bytes: &[u8]) -> Result<Value, GvFault>
    ensures { Gives view result (parse depth kind.now bytes.now) }
{
    if depth == 0 {
        decode_flat(alloc, kind, bytes)
    } else {
        decode_deep(alloc, depth - 1, kind, bytes)
    }
}

#[cycle(decode)]
fn decode_deep(alloc: Global, depth: usize, kind: &Node, bytes: &[u8]) -> Result<Value, GvFault>
    ensures { Gives view result (parse (suc depth) kind.now bytes.now) }
{
    match kind.shape() {
        Shape::Basic(basic) => decode_basic(alloc, *basic, bytes),
        Shape::Variant => decode_variant(alloc, depth, bytes),
        Shape::Array(of) => match decode_elements(alloc, depth, of, bytes) {
            Ok(values) => Ok(Value::Array(values)),
            Err(fault) => Err(fault),
        },
        Shape::Maybe(of) => decode_maybe(alloc, depth, of, bytes),
        Shape::Tuple(members) => match decode_members(alloc, depth, members, &[], bytes) {
            Ok(values) => Ok(Value::Tuple(values)),
            Err(fault) => Err(fault),
        },
        Shape::Entry(key, of) => decode_entry(alloc, depth, *key, of, bytes),
    }
}

#[cycle(decode)]
fn decode_members(
    alloc: Global,
    depth: usize,
    front: &[Node],
    back: &[Node],
    bytes: &[u8],
) -> Result<Vec<Value>, GvFault>
    ensures { Gives (λ v. views v.items) result (tuple_at (parse depth) (kinds_of (front.now ++ back.now)) bytes.now (size_for (length bytes.now)) (inner (kinds_of (front.now ++ back.now)))) }
{
    let width = width_for(bytes.len());
    let count = inner_count(front, back);
    if count > bytes.len() / width {
        return Err(GvFault::NotNormal);
    }
    let limit = bytes.len() - width * count;
    let mut table = bytes.len();
    let mut pos = 0;
    let mut values = Vec::new(alloc);
    let mut front_left = front;
    let mut back_left = back;
    while let Some((member, front_rest, back_rest)) = next_member(front_left, back_left) {
        let start = round_up(pos, member.align());
        let Some((end, used)) = member_end(
            member,
            is_end(front_rest, back_rest),
            start,
            limit,
            bytes,
            table,
            width,
        ) else {
            return Err(GvFault::NotNormal);
        };
        let value = decode_at(alloc, depth, member, &bytes[start..end])?;
        values.push(value)?;
        pos = end;
        table = used;
        front_left = front_rest;
        back_left = back_rest;
    }
    Ok(values)
}

#[cycle(decode)]
fn decode_elements(
    alloc: Global,
    depth: usize,
    kind: &Node,
    bytes: &[u8],
) -> Result<Vec<Value>, GvFault>
    ensures { Gives (λ v. views v.items) result (elements (parse depth) kind.now (fixed kind.now) bytes.now) }
{
    if kind.is_byte() {
        return decode_bytes(alloc, bytes);
    }
    match kind.size() {
        Some(size) => decode_alike(alloc, depth, kind, size, bytes),
        None if bytes.is_empty() => Ok(Vec::new(alloc)),
        None => decode_framed(alloc, depth, kind, bytes),
    }
}

#[cycle(decode)]
fn decode_alike(
    alloc: Global,
    depth: usize,
    kind: &Node,
    size: usize,
    bytes: &[u8],
) -> Result<Vec<Value>, GvFault>
    requires { Some size ≡ option_map capped (fixed kind.now) }
    ensures { Gives (λ v. views v.items) result (elements (parse depth) kind.now (fixed kind.now) bytes.now) }
{
    let mut values = Vec::new(alloc);
    let mut pos = 0;
    while pos < bytes.len() {
        let start = round_up(pos, kind.align());
        if !has_room(start, size, bytes.len()) {
            return Err(GvFault::NotNormal);
        }
        let end = start + size;
        let value = decode_at(alloc, depth, kind, &bytes[start..end])?;
        values.push(value)?;
        pos = end;
    }
    Ok(values)
}

#[cycle(decode)]
fn decode_framed(
    alloc: Global,
    depth: usize,
    kind: &Node,
    bytes: &[u8],
) -> Result<Vec<Value>, GvFault>
    requires { 0 < length bytes.now }
    ensures { Gives (λ v. views v.items) result (framed (parse depth) kind.now bytes.now (size_for (length bytes.now))) }
{
    let width = width_for(bytes.len());
    let limit = number(&bytes[bytes.len() - width..]);
    if limit >= bytes.len() {
        return Err(GvFault::NotNormal);
    }
    let count = (bytes.len() - limit) / width;
    let mut values = Vec::new(alloc);
    let mut pos = 0;
    let mut table = &bytes[limit..];
    for _ in 0..count {
        let (first, others) = table.split_at(width);
        let start = round_up(pos, kind.align());
        let end = number(first);
        if !is_piece(start, end, limit) {
            return Err(GvFault::NotNormal);
        }
        let value = decode_at(alloc, depth, kind, &bytes[start..end])?;
        values.push(value)?;
        pos = end;
        table = others;
    }
    Ok(values)
}

/// What is there, without the zero byte behind it.
fn content<'a>(kind: &Node, bytes: &'a [u8]) -> &'a [u8]
    requires { 0 < length bytes.now }
    ensures { result.now ≡ cond (is_some (fixed kind.now)) bytes.now (front bytes.now) }
{
    if kind.size().is_some() {
        bytes
    } else {
        &bytes[..bytes.len() - 1]
    }
}

#[cycle(decode)]
fn decode_maybe(alloc: Global, depth: usize, kind: &Node, bytes: &[u8]) -> Result<Value, GvFault>
    ensures { Gives view result (maybe_at (parse depth) kind.now (is_some (fixed kind.now)) bytes.now) }
{
    if bytes.is_empty() {
        return Ok(Value::Maybe(None));
    }
    match decode_at(alloc, depth, kind, content(kind, bytes)) {
        Ok(value) => Ok(Value::Maybe(Some(Box::new(alloc, value)?))),
        Err(fault) => Err(fault),
    }
}

/// The elements of an array of bytes.
fn decode_bytes(alloc: Global, bytes: &[u8]) -> Result<Vec<Value>, GvFault>
    ensures { Gives (λ v. views v.items) result (Some (trees_of (map (λ c. leaf (byte c)) bytes.now))) }
{
    let mut values = Vec::with_capacity(alloc, bytes.len())?;
    for byte in bytes {
        values.push(Value::Byte(*byte))?;
    }
    Ok(values)
}

/// What stands before the last zero byte, and behind it.
fn split_at_zero(bytes: &[u8]) -> Option<(&[u8], &[u8])>
    ensures { option_map (λ p. (p.0.now, p.1.now)) result ≡ split_last bytes.now }
{
    let mut left = bytes;
    while let Some((last, rest)) = left.split_last() {
        if *last == 0 {
            return Some((rest, &bytes[left.len()..]));
        }
        left = rest;
    }
    None
}

#[cycle(decode)]
fn decode_variant(alloc: Global, depth: usize, bytes: &[u8]) -> Result<Value, GvFault>
    ensures { Gives view result (variant_at (parse depth) bytes.now) }
{
    let Some((content, text)) = split_at_zero(bytes) else {
        return Err(GvFault::NotNormal);
    };
    match read_type_string(alloc, text)? {
        Parsed::Kind(kind) => match decode_at(alloc, depth, kind.node(), content) {
            Ok(value) => Ok(Value::Variant(kind, Box::new(alloc, value)?)),
            Err(fault) => Err(fault),
        },
        Parsed::TooDeep => Err(GvFault::NotNormal),
        Parsed::Bad => Err(GvFault::NotNormal),
    }
}

#[cycle(decode)]
fn decode_entry(
    alloc: Global,
    depth: usize,
    key: Basic,
    kind: &Node,
    bytes: &[u8],
) -> Result<Value, GvFault>
    ensures { Gives view result (entry_at (parse depth) key kind.now bytes.now) }
{
    let key = Node::basic(key);
    match decode_members(
        alloc,
        depth,
        slice::from_ref(&key),
        slice::from_ref(kind),
        bytes,
    ) {
        Ok(values) => entry_of(alloc, values),
        Err(fault) => Err(fault),
    }
}

/// The dictionary entry of a key and a value.
fn entry_of(alloc: Global, values: Vec<Value>) -> Result<Value, GvFault>
    ensures { Gives view result (as_pair (views values.items)) }
{
    let mut values = values;
    let Some(value) = values.pop() else {
        return Err(GvFault::NotNormal);
    };
    let Some(key) = values.pop() else {
        return Err(GvFault::NotNormal);
    };
    if !values.is_empty() {
        return Err(GvFault::NotNormal);
    }
    let key = Box::new(alloc, key)?;
    let value = Box::new(alloc, value)?;
    Ok(Value::Entry(key, value))
}
