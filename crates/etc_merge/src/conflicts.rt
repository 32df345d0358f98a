//! Where a merge is refused.
ghost use Rattle.std.specs.Prelude.{◌≡◌, ◌↔◌, IsTrue, false, true};
ghost use Rattle.std.specs.Option.{option_copied};
ghost use Rattle.ost_types.specs.PathMap.{IsAscending, paths_of};
ghost use Rattle.etc_merge.specs.Entries.{AllAfter, StartsFrom};
ghost use Rattle.etc_merge.specs.Merging.{AreTrees, AreUnlike, IsLeaf, IsLeastConflict};
ghost use Rattle.etc_merge.specs.Steps.{AgreesHere, ConflictHere};

use crate::entries::{Entry, from_path, node_of};
use crate::kept::{has_kept_below, is_kept};
use ost_types::{FsPath, NodeName, PathMap};

/// The place in the current tree of its least path at which the merge is refused. A path at which it is refused is one of the current
/// tree. No memory is taken.
pub fn conflict(base: &PathMap, current: &PathMap, new: &PathMap) -> Option<usize>
    requires { AreTrees base.now current.now new.now }
    ensures { IsLeastConflict base.now current.now new.now result }
{
    let entries = current.as_slice();
    let mut before = base.as_slice();
    let mut behind = new.as_slice();
    let mut left = entries;
    while let Some((first, rest)) = left.split_first() {
        before = from_path(before, &first.0);
        behind = from_path(behind, &first.0);
        if is_conflict(before, first, rest, behind) {
            return Some(entries.len() - left.len());
        }
        left = rest;
    }
    None
}

/// Whether the merge is refused at the path of this entry, behind which the current tree has the rest.
fn is_conflict(base: &[Entry], entry: &Entry, rest: &[Entry], new: &[Entry]) -> bool
    requires base { IsAscending (paths_of base.now) × StartsFrom entry.now.0 base.now }
    requires new { IsAscending (paths_of new.now) × StartsFrom entry.now.0 new.now }
    requires rest { IsAscending (paths_of rest.now) × AllAfter entry.now.0 rest.now }
    ensures yes { result ≡ true → ConflictHere base.now rest.now new.now entry.now.0 entry.now.1 }
    ensures no { result ≡ false → AgreesHere base.now rest.now new.now entry.now.0 entry.now.1 }
{
    let (path, node) = entry;
    let Some(other) = node_of(new, path) else {
        return false;
    };
    if is_kept(base, path, node) {
        are_unlike(node, other)
    } else {
        is_leaf(other) && has_kept_below(base, rest, path)
    }
}

/// Whether just one of them is a folder.
fn are_unlike(one: &NodeName, other: &NodeName) -> bool
    ensures { IsTrue result ↔ AreUnlike one.now other.now }
{
    is_leaf(one) != is_leaf(other)
}

fn is_leaf(node: &NodeName) -> bool
    ensures { IsTrue result ↔ IsLeaf node.now }
{
    match node {
        NodeName::Leaf(_) => true,
        NodeName::Folder(_) => false,
    }
}
