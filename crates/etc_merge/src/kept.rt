//! What of the current tree is kept.
ghost use Rattle.std.specs.Prelude.{◌≡◌, ◌≢◌, ◌↔◌, IsTrue, Some, false, true};
ghost use Rattle.ost_types.specs.PathMap.{IsAscending, node_at, paths_of};
ghost use Rattle.etc_merge.specs.Entries.{AllAfter, StartsFrom};
ghost use Rattle.etc_merge.specs.Merging.{HasKeptBelow};

use crate::entries::{Entry, from_path, is_below, node_of};
use crate::same::is_same;
use ost_types::{FsPath, NodeName};

/// Whether the base has something else at the path than this node, or nothing.
pub(crate) fn is_kept(base: &[Entry], path: &FsPath, node: &NodeName) -> bool
    requires ascending { IsAscending (paths_of base.now) }
    requires starts { StartsFrom path.now base.now }
    ensures yes { result ≡ true → node_at base.now path.now ≢ Some node.now }
    ensures no { result ≡ false → node_at base.now path.now ≡ Some node.now }
{
    match node_of(base, path) {
        Some(before) => !is_same(before, node),
        None => true,
    }
}

/// Whether something below the path is kept. All entries of the current tree come after the path.
pub(crate) fn has_kept_below(base: &[Entry], current: &[Entry], path: &FsPath) -> bool
    requires base { IsAscending (paths_of base.now) }
    requires current { IsAscending (paths_of current.now) }
    requires after { AllAfter path.now current.now }
    ensures { IsTrue result ↔ HasKeptBelow base.now current.now path.now }
{
    let mut before = base;
    let mut left = current;
    while let Some((first, rest)) = left.split_first() {
        if !is_below(path, &first.0) {
            return false;
        }
        before = from_path(before, &first.0);
        if is_kept(before, &first.0, &first.1) {
            return true;
        }
        left = rest;
    }
    false
}
