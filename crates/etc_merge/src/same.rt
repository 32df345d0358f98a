//! Whether nodes are the same.
ghost use Rattle.std.specs.Prelude.{◌≡◌, ◌↔◌, IsTrue};

use ost_types::{Meta, NodeName, Xattr};

/// Leaves are the same by the names of their objects, folders by their attributes.
pub fn is_same(one: &NodeName, other: &NodeName) -> bool
    ensures { IsTrue result ↔ (one.now ≡ other.now) }
{
    match (one, other) {
        (NodeName::Leaf(one), NodeName::Leaf(other)) => one == other,
        (NodeName::Folder(one), NodeName::Folder(other)) => is_same_meta(one, other),
        (NodeName::Leaf(_), NodeName::Folder(_)) | (NodeName::Folder(_), NodeName::Leaf(_)) =>
            false,
    }
}

fn is_same_meta(one: &Meta, other: &Meta) -> bool
    ensures { IsTrue result ↔ (one.now ≡ other.now) }
{
    one.uid == other.uid
        && one.gid == other.gid
        && one.mode == other.mode
        && are_same(one.xattrs.as_slice(), other.xattrs.as_slice())
}

fn are_same(ones: &[Xattr], others: &[Xattr]) -> bool
    ensures { IsTrue result ↔ (ones.now ≡ others.now) }
{
    let mut left = ones;
    let mut right = others;
    while let Some((one, ones)) = left.split_first() {
        let Some((other, others)) = right.split_first() else {
            return false;
        };
        if !is_same_xattr(one, other) {
            return false;
        }
        left = ones;
        right = others;
    }
    right.is_empty()
}

fn is_same_xattr(one: &Xattr, other: &Xattr) -> bool
    ensures { IsTrue result ↔ (one.now ≡ other.now) }
{
    one.name == other.name && one.value == other.value
}
