//! Types as trees, each node with its alignment and size.

ghost use Rattle.std.specs.Prelude.{◌≡◌, ◌<◌, ◌≤◌, ◌+◌, ℕ, true, option_map};
ghost use Rattle.gv_core.specs.declared.kind.Basic.TheVariants.{Byte};
ghost use Rattle.gv_core.specs.Kind.{basic, variant, array, maybe, tuple, entry};
ghost use Rattle.gv_core.specs.Measure.{alignment, fixed, fixed_end, widest, basic_alignment, basic_size, up};
ghost use Rattle.gv_core.specs.Node.{seen, capped, kinds_of};

use std::marker::Model;

/// A type without a container.
#[derive(Clone, Copy, Debug, PartialEq, Eq)]
pub enum Basic {
    Byte,
    Bool,
    I16,
    U16,
    I32,
    U32,
    I64,
    U64,
    Handle,
    Double,
    Text,
    Path,
    Signature,
}

/// A type as a tree.
#[cycle(kind)]
#[derive(Debug, Drop)]
pub enum Shape {
    Basic(Basic),
    Variant,
    Array(Box<Node>),
    Maybe(Box<Node>),
    Tuple(Vec<Node>),
    Entry(Basic, Box<Node>),
}

/// A type with its alignment and, where all its values have one, their size.
#[cycle(kind)]
#[derive(Debug, Drop)]
pub struct Node {
    align: usize,
    size: Option<usize>,
    shape: Shape,
}

impl Model for Node {
    ghost use Rattle.gv_core.specs.Kind.{Kind};
    ghost use Rattle.gv_core.specs.Spelling.{kind_code};

    ghost Value = { Kind };

    ghost coded = { kind_code };

    ghost use Rattle.gv_core.specs.Node.{seen, IsKnown, weight};

    ghost view = { λ a. seen a.shape };

    ghost invariant = { IsKnown };

    ghost size = { weight };

    ghost use Rattle.gv_core.specs.NodeFalls.{depth_le-weight};

    ghost size_decreases = { λ a h. depth_le-weight a.shape };
}

impl Basic {
    fn align(self) -> usize
        ensures { result ≡ basic_alignment self }
    {
        match self {
            Basic::Byte | Basic::Bool | Basic::Text | Basic::Path | Basic::Signature => 1,
            Basic::I16 | Basic::U16 => 2,
            Basic::I32 | Basic::U32 | Basic::Handle => 4,
            Basic::I64 | Basic::U64 | Basic::Double => 8,
        }
    }

    fn size(self) -> Option<usize>
        ensures { result ≡ basic_size self }
    {
        match self {
            Basic::Byte | Basic::Bool => Some(1),
            Basic::I16 | Basic::U16 => Some(2),
            Basic::I32 | Basic::U32 | Basic::Handle => Some(4),
            Basic::I64 | Basic::U64 | Basic::Double => Some(8),
            Basic::Text | Basic::Path | Basic::Signature => None,
        }
    }
}

impl Node {
    /// The multiple at which a value may begin.
    pub fn align(&self) -> usize
        ensures value { result ≡ alignment self.now }
        ensures positive { 0 < result }
        ensures small { result ≤ 8 }
    {
        self.align
    }

    /// How many bytes each value has, where all have the same number.
    pub fn size(&self) -> Option<usize>
        ensures { result ≡ option_map capped (fixed self.now) }
    {
        self.size
    }

    pub fn is_byte(&self) -> bool
        ensures { result ≡ true → self.now ≡ basic Byte }
    {
        matches!(&self.shape, Shape::Basic(Basic::Byte))
    }

    pub fn shape(&self) -> &Shape
        ensures { seen result.now ≡ self.now }
    {
        &self.shape
    }

    #[tactic(auto, unfolding(crate::specs::Measure::alignment, crate::specs::Measure::fixed))]
    pub fn basic(of: Basic) -> Node
        ensures { result ≡ basic of }
    {
        Node {
            align: of.align(),
            size: of.size(),
            shape: Shape::Basic(of),
        }
    }

    #[tactic(auto, unfolding(crate::specs::Measure::alignment, crate::specs::Measure::fixed))]
    pub fn variant() -> Node
        ensures { result ≡ variant }
    {
        Node {
            align: 8,
            size: None,
            shape: Shape::Variant,
        }
    }

    #[tactic(auto, unfolding(crate::specs::Measure::alignment, crate::specs::Measure::fixed))]
    pub fn array(of: Box<Node>) -> Node
        ensures { result ≡ array of.value }
    {
        let align = of.align();
        Node {
            align,
            size: None,
            shape: Shape::Array(of),
        }
    }

    #[tactic(auto, unfolding(crate::specs::Measure::alignment, crate::specs::Measure::fixed))]
    pub fn maybe(of: Box<Node>) -> Node
        ensures { result ≡ maybe of.value }
    {
        let align = of.align();
        Node {
            align,
            size: None,
            shape: Shape::Maybe(of),
        }
    }

    pub fn entry(key: Basic, of: Box<Node>) -> Node
        ensures { result ≡ entry key of.value }
    {
        let align = entry_align(key, &of);
        let size = entry_size(key, &of, align);
        Node {
            align,
            size,
            shape: Shape::Entry(key, of),
        }
    }

    #[tactic(auto, unfolding(crate::specs::Measure::alignment))]
    pub fn tuple(members: Vec<Node>) -> Node
        ensures { result ≡ tuple (kinds_of members.items) }
    {
        let align = largest_alignment(&members);
        let size = tuple_size(&members, align);
        Node {
            align,
            size,
            shape: Shape::Tuple(members),
        }
    }
}

/// Where a member of `size` bytes ends that comes behind `end`.
fn end_behind(end: usize, align: usize, size: usize) -> usize
    requires positive { 0 < align }
    requires small { align ≤ 8 }
    ensures { (n m : ℕ) → end ≡ capped n → size ≡ capped m → result ≡ capped (up align n + m) }
{
    let gap = (align - end % align) % align;
    end.saturating_add(gap).saturating_add(size)
}

fn entry_align(key: Basic, of: &Node) -> usize
    ensures value { result ≡ alignment (entry key of.now) }
    ensures positive { 0 < result }
    ensures small { result ≤ 8 }
{
    key.align().max(of.align())
}

fn entry_size(key: Basic, of: &Node, align: usize) -> Option<usize>
    requires align { align ≡ alignment (entry key of.now) }
    requires positive { 0 < align }
    requires small { align ≤ 8 }
    ensures { result ≡ option_map capped (fixed (entry key of.now)) }
{
    let front = key.size()?;
    let back = of.size()?;
    let end = end_behind(front, of.align(), back);
    Some(end_behind(end, align, 0))
}

fn tuple_size(members: &[Node], align: usize) -> Option<usize>
    requires align { align ≡ widest (kinds_of members.now) }
    requires positive { 0 < align }
    requires small { align ≤ 8 }
    ensures { result ≡ option_map capped (fixed (tuple (kinds_of members.now))) }
{
    if members.is_empty() {
        return Some(1);
    }
    padded_end(members, align)
}

/// The largest alignment.
#[tactic(auto, unfolding(crate::specs::Measure::alignment))]
fn largest_alignment(members: &[Node]) -> usize
    ensures value { result ≡ widest (kinds_of members.now) }
    ensures positive { 0 < result }
    ensures small { result ≤ 8 }
{
    let mut align = 1;
    let mut left = members;
    while let Some((member, rest)) = left.split_first() {
        align = align.max(member.align());
        left = rest;
    }
    align
}

/// Where members of fixed size end, and then the padding behind them.
fn padded_end(members: &[Node], align: usize) -> Option<usize>
    requires positive { 0 < align }
    requires small { align ≤ 8 }
    ensures { result ≡ option_map capped (option_map (up align) (fixed_end 0 (kinds_of members.now))) }
{
    let mut end = 0;
    let mut left = members;
    while let Some((member, rest)) = left.split_first() {
        let size = member.size()?;
        end = end_behind(end, member.align(), size);
        left = rest;
    }
    Some(end_behind(end, align, 0))
}
