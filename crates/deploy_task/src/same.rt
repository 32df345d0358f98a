//! Whether two maps are one.
ghost use Rattle.std.specs.Prelude.{◌≡◌, ◌↔◌, IsTrue};

use etc_merge::is_same;
use ost_types::{FsPath, NodeName, PathMap};

pub(crate) fn is_same_map(one: &PathMap, other: &PathMap) -> bool
    ensures { IsTrue result ↔ (one.now ≡ other.now) }
{
    are_same_nodes(one.as_slice(), other.as_slice())
}

fn are_same_nodes(ones: &[(FsPath, NodeName)], others: &[(FsPath, NodeName)]) -> bool
    ensures { IsTrue result ↔ (ones.now ≡ others.now) }
{
    let mut left = ones;
    let mut right = others;
    while let Some((one, ones)) = left.split_first() {
        let Some((other, others)) = right.split_first() else {
            return false;
        };
        if !is_same_pair(one, other) {
            return false;
        }
        left = ones;
        right = others;
    }
    right.is_empty()
}

fn is_same_pair(one: &(FsPath, NodeName), other: &(FsPath, NodeName)) -> bool
    ensures { IsTrue result ↔ (one.now ≡ other.now) }
{
    one.0 == other.0 && is_same(&one.1, &other.1)
}
