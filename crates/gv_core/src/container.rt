//! Containers cut into the bytes of their members, and joined from them, without a value for each member.

ghost use Rattle.std.specs.Prelude.{◌≡◌, ◌<◌, ◌≤◌, ◌++◌, ◌⊎◌, List, ℕ, Some, IfOk, IfErr, length, map, option_map, option_and_then};
ghost use Rattle.std.specs.Option.{is_some};
ghost use Rattle.gv_core.specs.declared.fault.GvFault.TheVariants.{NotNormal, NoMemory};
ghost use Rattle.gv_core.specs.Kind.{array, tuple, no_kinds};
ghost use Rattle.gv_core.specs.Node.{kinds_of, capped};
ghost use Rattle.gv_core.specs.Measure.{alignment, fixed};
ghost use Rattle.gv_core.specs.Layout.{tuple_of};
ghost use Rattle.gv_core.specs.Reading.{size_for, inner, elements, framed, tuple_at};
ghost use Rattle.gv_core.specs.Container.{container, container_form, cut_of, raw, raws, each_part, has_size, Cuts};
ghost use Rattle.gv_core.specs.Gives.{Gives, GivesBytes, Puts, same_bytes};

use crate::codec::is_same;
use crate::fault::{GvFault, GvNoMemory};
use crate::kind::{Node, Shape};
use crate::reading::{has_room, inner_count, is_piece, member_end, number, round_up, width_for};
use crate::runs::{is_end, next_member};
use crate::text::GvBytes;
use crate::type_string::GvKind;
use crate::writing::{finish_array, finish_tuple, is_known, note_end, pad};
use std::alloc::Global;
use std::slice;

/// The bytes of each element of an array, or of each member of a tuple or a dictionary entry.
///
/// They are looked at no further: a member's bytes may be no normal form of its type.
pub fn cut<'a>(alloc: Global, kind: &GvKind, bytes: &'a [u8]) -> Result<Vec<&'a [u8]>, GvFault>
    // The container with these members has these bytes.
    ensures form { IfOk result (λ v. container_form kind.now (map (λ b. b.now) v.items) ≡ Some bytes.now) }
    // Where members make a container of these bytes, they are found, unless memory runs out.
    ensures only { (rs : List (List ℕ)) → container_form kind.now rs ≡ Some bytes.now → Cuts rs (λ v. map (λ b. b.now) v.items) result }
    ensures fault { IfErr result (λ e. (e ≡ NoMemory) ⊎ ((e ≡ NotNormal) × ((rs : List (List ℕ)) → container_form kind.now rs ≡ Some bytes.now → ⊥))) }
{
    let node = kind.node();
    let members = match cut_at(alloc, node, bytes) {
        Ok(members) => members,
        Err(fault) => return Err(fault),
    };
    let joined = join_at(alloc, node, &members)?;
    if is_same(&joined, bytes) {
        Ok(members)
    } else {
        Err(GvFault::NotNormal)
    }
}

/// The array, tuple or dictionary entry whose members have these bytes; None where their number or a size is wrong,
/// or where the type is no such container.
pub fn join(alloc: Global, kind: &GvKind, members: &[&[u8]]) -> Result<Option<GvBytes>, GvNoMemory>
    ensures { IfOk result (λ o. container_form kind.now (map (λ b. b.now) members.now) ≡ o) }
{
    match join_at(alloc, kind.node(), members)? {
        Some(bytes) => Ok(Some(GvBytes::new(bytes))),
        None => Ok(None),
    }
}

fn cut_at<'a>(alloc: Global, kind: &Node, bytes: &'a [u8]) -> Result<Vec<&'a [u8]>, GvFault>
    ensures { Gives (λ v. raws (map (λ b. b.now) v.items)) result (cut_of kind.now bytes.now) }
{
    match kind.shape() {
        Shape::Array(of) => cut_elements(alloc, of, bytes),
        Shape::Tuple(kinds) => cut_members(alloc, kinds, &[], bytes),
        Shape::Entry(key, of) => {
            let key = Node::basic(*key);
            cut_members(alloc, slice::from_ref(&key), slice::from_ref(of), bytes)
        }
        _ => Err(GvFault::NotNormal),
    }
}

fn cut_elements<'a>(alloc: Global, kind: &Node, bytes: &'a [u8]) -> Result<Vec<&'a [u8]>, GvFault>
    ensures { Gives (λ v. raws (map (λ b. b.now) v.items)) result (elements raw kind.now (fixed kind.now) bytes.now) }
{
    match kind.size() {
        Some(size) => cut_alike(alloc, kind, size, bytes),
        None if bytes.is_empty() => Ok(Vec::new(alloc)),
        None => cut_framed(alloc, kind, bytes),
    }
}

fn cut_alike<'a>(
    alloc: Global,
    kind: &Node,
    size: usize,
    bytes: &'a [u8],
) -> Result<Vec<&'a [u8]>, GvFault>
    requires { Some size ≡ option_map capped (fixed kind.now) }
    ensures { Gives (λ v. raws (map (λ b. b.now) v.items)) result (elements raw kind.now (fixed kind.now) bytes.now) }
{
    let mut pieces = Vec::new(alloc);
    let mut pos = 0;
    while pos < bytes.len() {
        let start = round_up(pos, kind.align());
        if !has_room(start, size, bytes.len()) {
            return Err(GvFault::NotNormal);
        }
        let end = start + size;
        pieces.push(&bytes[start..end])?;
        pos = end;
    }
    Ok(pieces)
}

fn cut_framed<'a>(alloc: Global, kind: &Node, bytes: &'a [u8]) -> Result<Vec<&'a [u8]>, GvFault>
    requires { 0 < length bytes.now }
    ensures { Gives (λ v. raws (map (λ b. b.now) v.items)) result (framed raw kind.now bytes.now (size_for (length bytes.now))) }
{
    let width = width_for(bytes.len());
    let limit = number(&bytes[bytes.len() - width..]);
    if limit >= bytes.len() {
        return Err(GvFault::NotNormal);
    }
    let count = (bytes.len() - limit) / width;
    let mut pieces = Vec::new(alloc);
    let mut pos = 0;
    let mut table = &bytes[limit..];
    for _ in 0..count {
        let (first, others) = table.split_at(width);
        let start = round_up(pos, kind.align());
        let end = number(first);
        if !is_piece(start, end, limit) {
            return Err(GvFault::NotNormal);
        }
        pieces.push(&bytes[start..end])?;
        pos = end;
        table = others;
    }
    Ok(pieces)
}

fn cut_members<'a>(
    alloc: Global,
    front: &[Node],
    back: &[Node],
    bytes: &'a [u8],
) -> Result<Vec<&'a [u8]>, GvFault>
    ensures { Gives (λ v. raws (map (λ b. b.now) v.items)) result (tuple_at raw (kinds_of (front.now ++ back.now)) bytes.now (size_for (length bytes.now)) (inner (kinds_of (front.now ++ back.now)))) }
{
    let width = width_for(bytes.len());
    let count = inner_count(front, back);
    if count > bytes.len() / width {
        return Err(GvFault::NotNormal);
    }
    let limit = bytes.len() - width * count;
    let mut table = bytes.len();
    let mut pos = 0;
    let mut pieces = Vec::new(alloc);
    let mut front_left = front;
    let mut back_left = back;
    while let Some((member, front_rest, back_rest)) = next_member(front_left, back_left) {
        let start = round_up(pos, member.align());
        let Some((end, used)) = member_end(
            member,
            is_end(front_rest, back_rest),
            start,
            limit,
            bytes,
            table,
            width,
        ) else {
            return Err(GvFault::NotNormal);
        };
        pieces.push(&bytes[start..end])?;
        pos = end;
        table = used;
        front_left = front_rest;
        back_left = back_rest;
    }
    Ok(pieces)
}

fn join_at(alloc: Global, kind: &Node, members: &[&[u8]]) -> Result<Option<Vec<u8>>, GvNoMemory>
    ensures { GivesBytes (λ v. v.items) result (container kind.now (map (λ b. b.now) members.now)) }
{
    let mut out = Vec::new(alloc);
    if join_into(alloc, &mut out, kind, members)? {
        Ok(Some(out))
    } else {
        Ok(None)
    }
}

fn join_into(
    alloc: Global,
    out: &mut Vec<u8>,
    kind: &Node,
    members: &[&[u8]],
) -> Result<bool, GvNoMemory>
    ensures { Puts out.old.items out.new.items result (container kind.now (map (λ b. b.now) members.now)) }
{
    match kind.shape() {
        Shape::Array(of) => join_elements(alloc, out, members, of),
        Shape::Tuple(kinds) => join_members(alloc, out, members, kinds, &[], kind),
        Shape::Entry(key, of) => {
            let key = Node::basic(*key);
            join_members(
                alloc,
                out,
                members,
                slice::from_ref(&key),
                slice::from_ref(of),
                kind,
            )
        }
        _ => Ok(false),
    }
}

/// The bytes are as many as each value of the type has, if all have the same number.
fn is_sized(kind: &Node, bytes: &[u8]) -> bool
    ensures { result ≡ has_size (fixed kind.now) bytes.now }
{
    match kind.size() {
        Some(size) => bytes.len() == size,
        None => true,
    }
}

fn join_elements(
    alloc: Global,
    out: &mut Vec<u8>,
    members: &[&[u8]],
    kind: &Node,
) -> Result<bool, GvNoMemory>
    ensures { Puts out.old.items out.new.items result (container (array kind.now) (map (λ b. b.now) members.now)) }
{
    let start = out.len();
    let fixed = kind.size().is_some();
    let mut ends: Vec<usize> = Vec::new(alloc);
    let mut at = 0;
    while at < members.len() {
        let member = members[at];
        if !is_sized(kind, member) {
            return Ok(false);
        }
        pad(out, start, kind.align())?;
        out.extend_from_slice(member)?;
        note_end(&mut ends, fixed, out.len() - start)?;
        at += 1;
    }
    finish_array(out, start, fixed, &ends)
}

fn join_members(
    alloc: Global,
    out: &mut Vec<u8>,
    members: &[&[u8]],
    kinds: &[Node],
    more_kinds: &[Node],
    whole: &Node,
) -> Result<bool, GvNoMemory>
    requires align { alignment whole.now ≡ alignment (tuple (kinds_of (kinds.now ++ more_kinds.now))) }
    requires size { fixed whole.now ≡ fixed (tuple (kinds_of (kinds.now ++ more_kinds.now))) }
    ensures { Puts out.old.items out.new.items result (option_and_then tuple_of (each_part (kinds_of (kinds.now ++ more_kinds.now)) (map (λ b. b.now) members.now))) }
{
    if is_end(kinds, more_kinds) {
        return join_unit(out, members);
    }
    let start = out.len();
    let mut ends: Vec<usize> = Vec::new(alloc);
    let mut at = 0;
    let mut kinds_left = kinds;
    let mut more_kinds_left = more_kinds;
    while let Some((kind, kinds_rest, more_kinds_rest)) = next_member(kinds_left, more_kinds_left) {
        if at == members.len() {
            return Ok(false);
        }
        let member = members[at];
        if !is_sized(kind, member) {
            return Ok(false);
        }
        pad(out, start, kind.align())?;
        out.extend_from_slice(member)?;
        let known = is_known(kind, is_end(kinds_rest, more_kinds_rest));
        note_end(&mut ends, known, out.len() - start)?;
        at += 1;
        kinds_left = kinds_rest;
        more_kinds_left = more_kinds_rest;
    }
    if at < members.len() {
        return Ok(false);
    }
    finish_tuple(out, start, whole.size().is_some(), whole.align(), &ends)
}

fn join_unit(out: &mut Vec<u8>, members: &[&[u8]]) -> Result<bool, GvNoMemory>
    ensures { Puts out.old.items out.new.items result (option_and_then tuple_of (each_part no_kinds (map (λ b. b.now) members.now))) }
{
    if !members.is_empty() {
        return Ok(false);
    }
    out.push(0)?;
    Ok(true)
}
