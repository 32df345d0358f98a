//! Entries of a tree, in the order of their paths.
ghost use Rattle.std.specs.Prelude.{◌≡◌};
ghost use Rattle.std.specs.Option.{option_copied};
ghost use Rattle.ost_types.specs.Path.{is_below};
ghost use Rattle.ost_types.specs.PathMap.{IsAscending, node_at, paths_of};
ghost use Rattle.etc_merge.specs.Entries.{IsFrom, StartsFrom};

use ost_types::{FsPath, NodeName};

/// A path of a tree with the node that stands there.
pub(crate) type Entry = (FsPath, NodeName);

/// The entries without those before the path.
pub(crate) fn from_path<'a>(entries: &'a [Entry], path: &FsPath) -> &'a [Entry]
    ensures { IsFrom entries.now path.now result.now }
{
    let mut left = entries;
    while let Some((first, rest)) = left.split_first() {
        if !first.0.cmp(path).is_lt() {
            return left;
        }
        left = rest;
    }
    left
}

/// The node at the path, which no entry comes before.
pub(crate) fn node_of<'a>(entries: &'a [Entry], path: &FsPath) -> Option<&'a NodeName>
    requires ascending { IsAscending (paths_of entries.now) }
    requires starts { StartsFrom path.now entries.now }
    ensures { option_copied result ≡ node_at entries.now path.now }
{
    let (first, _) = entries.split_first()?;
    if first.0 == *path {
        Some(&first.1)
    } else {
        None
    }
}

/// Whether a path is another one or lies below it.
pub(crate) fn is_below(path: &FsPath, other: &FsPath) -> bool
    ensures { result ≡ is_below path.now other.now }
{
    other.names().starts_with(path.names())
}
