//! Whether what stands at a path is a folder or a link with given attributes.
ghost use Rattle.std.specs.Prelude.{◌≡◌, ◌↔◌, IsTrue, Some};
ghost use Rattle.fs_trait.specs.declared.types.Node.TheVariants.{File, Folder, Link};

use fs_trait::Node;
use ost_types::{Meta, Text, Xattr};

/// Whether this is a folder with these attributes.
pub(crate) fn is_folder_of(node: &Option<Node>, meta: &Meta) -> bool
    ensures { IsTrue result ↔ (node.now ≡ Some (Folder meta.now)) }
{
    match node {
        Some(Node::Folder(found)) => is_same_meta(found, meta),
        Some(Node::File { .. }) => false,
        Some(Node::Link { .. }) => false,
        None => false,
    }
}

/// Whether this is a regular file with these attributes and no bytes.
pub(crate) fn is_empty_file_of(node: &Option<Node>, meta: &Meta) -> bool
    ensures { IsTrue result ↔ (node.now ≡ Some (File meta.now 0)) }
{
    match node {
        Some(Node::File { meta: found, len }) => *len == 0 && is_same_meta(found, meta),
        Some(Node::Folder(_)) => false,
        Some(Node::Link { .. }) => false,
        None => false,
    }
}

/// Whether this is a symbolic link with these attributes and this target.
pub(crate) fn is_link_of(node: &Option<Node>, meta: &Meta, target: &Text) -> bool
    ensures { IsTrue result ↔ (node.now ≡ Some (Link meta.now target.now)) }
{
    match node {
        Some(
            Node::Link {
                meta: found,
                target: leads,
            },
        ) => is_same_link(found, leads, meta, target),
        Some(Node::File { .. }) => false,
        Some(Node::Folder(_)) => false,
        None => false,
    }
}

fn is_same_link(one: &Meta, leads: &Text, other: &Meta, target: &Text) -> bool
    ensures { IsTrue result ↔ ((one.now ≡ other.now) × (leads.now ≡ target.now)) }
{
    is_same_meta(one, other) && *leads == *target
}

fn is_same_meta(one: &Meta, other: &Meta) -> bool
    ensures { IsTrue result ↔ (one.now ≡ other.now) }
{
    one.uid == other.uid
        && one.gid == other.gid
        && one.mode == other.mode
        && are_same(one.xattrs.as_slice(), other.xattrs.as_slice())
}

fn are_same(ones: &[Xattr], others: &[Xattr]) -> bool
    ensures { IsTrue result ↔ (ones.now ≡ others.now) }
{
    let mut left = ones;
    let mut right = others;
    while let Some((one, ones)) = left.split_first() {
        let Some((other, others)) = right.split_first() else {
            return false;
        };
        if !is_same_xattr(one, other) {
            return false;
        }
        left = ones;
        right = others;
    }
    right.is_empty()
}

fn is_same_xattr(one: &Xattr, other: &Xattr) -> bool
    ensures { IsTrue result ↔ (one.now ≡ other.now) }
{
    one.name == other.name && one.value == other.value
}
