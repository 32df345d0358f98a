//! Type strings, read from their end: what stands behind a letter is complete when the letter is read.

ghost use Rattle.std.specs.Prelude.{◌≡◌, ◌++◌, [], ◌∷◌, List, Some, true, option_map, IfOk, IfErr};
ghost use Rattle.gv_core.specs.Kind.{Kind, Item as Open, one, tuple, entry, kind_of, variant_kind, top, wrap, gather, pair_up, read_letter, basic_of, only, wrapped, under_curly};
ghost use Rattle.gv_core.specs.Layout.{as_basic};
ghost use Rattle.gv_core.specs.Node.{kinds_of};
ghost use Rattle.gv_core.specs.TypeString.{IsTypeString, KindFault};
ghost use Rattle.gv_core.specs.Stack.{Stacked, Stands, Held, HeldAll, Popped, PoppedCurly, Gathered, Reads, ReadKind, OnlyKind, ParsedAs};

use crate::fault::{GvFault, GvNoMemory};
use crate::kind::{Basic, Node, Shape};
use std::alloc::Global;
use std::marker::Model;

/// How deep containers may nest.
pub(crate) const DEEPEST: usize = 64;

/// A type, seen as its type string.
#[derive(Debug, Drop)]
pub struct GvKind {
    parts: Box<KindParts>,
}

#[derive(Debug, Drop)]
struct KindParts {
    text: Vec<u8>,
    node: Node,
}

impl Model for GvKind {
    ghost use Rattle.std.specs.Prelude.{List, ℕ, ◌≡◌, Some};
    ghost use Rattle.gv_core.specs.Kind.{variant_kind};

    ghost Value = { List ℕ };

    ghost view = { λ a. a.parts.value.text.items };

    ghost invariant = { λ a. variant_kind a.parts.value.text.items ≡ Some a.parts.value.node };
}

impl GvKind {
    /// The type string.
    pub fn text(&self) -> &[u8]
        ensures bytes { result.now ≡ self.now }
        ensures kind { IsTypeString self.now }
    {
        &self.parts.text
    }

    /// The type as a tree.
    pub(crate) fn node(&self) -> &Node
        ensures { variant_kind self.now ≡ Some result.now }
    {
        &self.parts.node
    }
}

/// The type that a text spells.
pub fn parse_kind(alloc: Global, text: &[u8]) -> Result<GvKind, GvFault>
    ensures text { IfOk result (λ k. k ≡ text.now) }
    ensures kind { IfOk result (λ _. IsTypeString text.now) }
    ensures fault { IfErr result (λ e. KindFault e text.now) }
{
    match read_type_string(alloc, text)? {
        Parsed::Kind(kind) => Ok(kind),
        Parsed::TooDeep => Err(GvFault::TooDeep),
        Parsed::Bad => Err(GvFault::BadKind),
    }
}

/// What a text is as a type string.
pub(crate) enum Parsed {
    Kind(GvKind),
    TooDeep,
    Bad,
}

pub(crate) fn read_type_string(alloc: Global, text: &[u8]) -> Result<Parsed, GvNoMemory>
    ensures { IfOk result (λ p. ParsedAs p text.now) }
{
    let Some((node, depth)) = read_kind(alloc, text)? else {
        return Ok(Parsed::Bad);
    };
    if depth > DEEPEST {
        return Ok(Parsed::TooDeep);
    }
    let text = Vec::from_slice(alloc, text)?;
    let parts = Box::new(alloc, KindParts { text, node })?;
    Ok(Parsed::Kind(GvKind { parts }))
}

/// What stands behind a place in a type string: a type with its depth, or a closing bracket.
/// At a depth above the limit the type isn't kept.
#[derive(Drop)]
enum Item {
    One(Node, usize),
    Round,
    Curly,
}

/// The type that a text spells, of any depth.
fn read_kind(alloc: Global, text: &[u8]) -> Result<Option<(Node, usize)>, GvNoMemory>
    ensures { ReadKind result (kind_of text.now) }
{
    let mut stack = Vec::new(alloc);
    let mut left = text;
    while let Some((letter, rest)) = left.split_last() {
        if !take_letter(alloc, *letter, &mut stack)? {
            return Ok(None);
        }
        left = rest;
    }
    Ok(only_kind(stack))
}

fn take_letter(alloc: Global, letter: u8, stack: &mut Vec<Item>) -> Result<bool, GvNoMemory>
    ensures { (st : List Open) → Stacked stack.old.items st → Reads result stack.new.items (read_letter letter st) }
{
    match letter {
        b'a' => wrap_top(alloc, stack, false),
        b'm' => wrap_top(alloc, stack, true),
        b'v' => push_item(stack, Item::One(Node::variant(), 1)),
        b')' => push_item(stack, Item::Round),
        b'}' => push_item(stack, Item::Curly),
        b'(' => close_tuple(alloc, stack),
        b'{' => close_entry(alloc, stack),
        _ => match basic_for(letter) {
            Some(basic) => push_item(stack, Item::One(Node::basic(basic), 0)),
            None => Ok(false),
        },
    }
}

fn basic_for(letter: u8) -> Option<Basic>
    ensures { result ≡ basic_of letter }
{
    match letter {
        b'y' => Some(Basic::Byte),
        b'b' => Some(Basic::Bool),
        b'n' => Some(Basic::I16),
        b'q' => Some(Basic::U16),
        b'i' => Some(Basic::I32),
        b'u' => Some(Basic::U32),
        b'x' => Some(Basic::I64),
        b't' => Some(Basic::U64),
        b'h' => Some(Basic::Handle),
        b'd' => Some(Basic::Double),
        b's' => Some(Basic::Text),
        b'o' => Some(Basic::Path),
        b'g' => Some(Basic::Signature),
        _ => None,
    }
}

fn push_item(stack: &mut Vec<Item>, item: Item) -> Result<bool, GvNoMemory>
    ensures { IfOk result (λ b. (b ≡ true) × (stack.new.items ≡ stack.old.items ++ item ∷ [])) }
{
    stack.push(item)?;
    Ok(true)
}

fn pop_kind(stack: &mut Vec<Item>) -> Option<(Node, usize)>
    ensures { (st : List Open) → Stacked stack.old.items st → Popped result stack.new.items (top st) }
{
    match stack.pop() {
        Some(Item::One(node, depth)) => Some((node, depth)),
        Some(Item::Round) => None,
        Some(Item::Curly) => None,
        None => None,
    }
}

fn pop_curly(stack: &mut Vec<Item>) -> bool
    ensures { (st : List Open) → Stacked stack.old.items st → PoppedCurly result stack.new.items (under_curly st) }
{
    match stack.pop() {
        Some(Item::Curly) => true,
        Some(Item::One(_, _)) => false,
        Some(Item::Round) => false,
        None => false,
    }
}

/// The one type on the stack.
fn only_kind(stack: Vec<Item>) -> Option<(Node, usize)>
    ensures { (st : List Open) → Stacked stack.items st → OnlyKind result (only st) }
{
    let mut stack = stack;
    let kind = pop_kind(&mut stack)?;
    if stack.is_empty() { Some(kind) } else { None }
}

/// The array or maybe of a type.
fn wrap_kind(
    alloc: Global,
    node: Node,
    depth: usize,
    is_maybe: bool,
) -> Result<(Node, usize), GvNoMemory>
    ensures { (k : Kind) → Held node depth k → IfOk result (λ p. Held p.0 p.1 (wrapped is_maybe k)) }
{
    if depth >= DEEPEST {
        return Ok((node, DEEPEST + 1));
    }
    let of = Box::new(alloc, node)?;
    let node = if is_maybe {
        Node::maybe(of)
    } else {
        Node::array(of)
    };
    Ok((node, depth + 1))
}

fn wrap_top(alloc: Global, stack: &mut Vec<Item>, is_maybe: bool) -> Result<bool, GvNoMemory>
    ensures { (st : List Open) → Stacked stack.old.items st → Reads result stack.new.items (wrap (wrapped is_maybe) st) }
{
    let Some((node, depth)) = pop_kind(stack) else {
        return Ok(false);
    };
    let (node, depth) = wrap_kind(alloc, node, depth, is_maybe)?;
    push_item(stack, Item::One(node, depth))
}

/// The types up to the closing bracket, and the largest depth.
fn gather_members(
    alloc: Global,
    stack: &mut Vec<Item>,
) -> Result<Option<(Vec<Node>, usize)>, GvNoMemory>
    ensures { (st : List Open) → Stacked stack.old.items st → IfOk result (λ o. Gathered (option_map (λ t. (t.0.items, t.1)) o) stack.new.items (gather st)) }
{
    let mut members = Vec::new(alloc);
    let mut deepest = 0;
    while let Some(item) = stack.pop() {
        match item {
            Item::One(node, depth) => {
                members.push(node)?;
                deepest = deepest.max(depth);
            }
            Item::Round => return Ok(Some((members, deepest))),
            Item::Curly => return Ok(None),
        }
    }
    Ok(None)
}

fn tuple_kind(members: Vec<Node>, deepest: usize) -> (Node, usize)
    ensures { (ks : List Kind) → HeldAll members.items deepest ks → Held result.0 result.1 (tuple (kinds_of ks)) }
{
    if deepest < DEEPEST {
        (Node::tuple(members), deepest + 1)
    } else {
        (Node::variant(), DEEPEST + 1)
    }
}

fn close_tuple(alloc: Global, stack: &mut Vec<Item>) -> Result<bool, GvNoMemory>
    ensures { (st : List Open) → Stacked stack.old.items st → Reads result stack.new.items (option_map (λ p. one (tuple p.0) ∷ p.1) (gather st)) }
{
    let Some((members, deepest)) = gather_members(alloc, stack)? else {
        return Ok(false);
    };
    let (node, depth) = tuple_kind(members, deepest);
    push_item(stack, Item::One(node, depth))
}

/// The basic type that a type is.
fn key_of(node: &Node, depth: usize) -> Option<Basic>
    ensures { (k : Kind) → Held node.now depth k → result ≡ as_basic k }
{
    if depth > 0 {
        return None;
    }
    match node.shape() {
        Shape::Basic(basic) => Some(*basic),
        _ => None,
    }
}

/// The dictionary entry of a key and a type.
fn entry_kind(
    alloc: Global,
    key: Basic,
    node: Node,
    depth: usize,
) -> Result<(Node, usize), GvNoMemory>
    ensures { (k : Kind) → Held node depth k → IfOk result (λ p. Held p.0 p.1 (entry key k)) }
{
    if depth >= DEEPEST {
        return Ok((node, DEEPEST + 1));
    }
    let of = Box::new(alloc, node)?;
    Ok((Node::entry(key, of), depth + 1))
}

fn close_entry(alloc: Global, stack: &mut Vec<Item>) -> Result<bool, GvNoMemory>
    ensures { (st : List Open) → Stacked stack.old.items st → Reads result stack.new.items (pair_up st) }
{
    let Some((key, key_depth)) = pop_kind(stack) else {
        return Ok(false);
    };
    let Some(key) = key_of(&key, key_depth) else {
        return Ok(false);
    };
    let Some((node, depth)) = pop_kind(stack) else {
        return Ok(false);
    };
    if !pop_curly(stack) {
        return Ok(false);
    }
    let (node, depth) = entry_kind(alloc, key, node, depth)?;
    push_item(stack, Item::One(node, depth))
}
