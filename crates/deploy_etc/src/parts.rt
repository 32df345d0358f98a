//! What a tree has below a path, as a map of its own.
ghost use Rattle.std.specs.Prelude.{◌≡◌, ◌++◌, ◌≤◌, IfOk, MatchOption, false, length};
ghost use Rattle.ost_types.specs.Path.{IsPath, is_below};
ghost use Rattle.ost_types.specs.PathMap.{IsPathMap};
ghost use Rattle.etc_merge.specs.Entries.{IsFrom};
ghost use Rattle.deploy_etc.specs.Defaults.{IsPartAt};

use ost_types::{FsPath, Name, NoMemory, NodeName, PathMap, TryCopy};
use std::alloc::Global;

/// What stands in the tree at the path and below, each by its path from there on.
pub(crate) fn part_of(alloc: Global, tree: &PathMap, at: &FsPath) -> Result<PathMap, NoMemory>
    ensures part { IfOk result (IsPartAt at.now tree.now) }
    ensures few { IfOk result (λ part. length part ≤ length tree.now) }
{
    let mut part = PathMap::new(alloc);
    let nodes = from_path(tree, at);
    for (path, node) in nodes {
        // what lies below a path is together
        let Some(names) = names_below(at, path) else {
            return Ok(part);
        };
        part.push(path_of(alloc, names)?, node.copy()?)?;
    }
    Ok(part)
}

/// The nodes of the tree without those before the path.
fn from_path<'a>(tree: &'a PathMap, at: &FsPath) -> &'a [(FsPath, NodeName)]
    ensures from { IsFrom tree.now at.now result.now }
    ensures map { IsPathMap result.now }
{
    let nodes = tree.as_slice();
    let start = nodes.partition_point(|node| node.0.cmp(at).is_lt());
    &nodes[start..]
}

/// How the path goes on from the other one, where it lies below it.
fn names_below<'a>(at: &FsPath, path: &'a FsPath) -> Option<&'a [Name]>
    ensures below { MatchOption result (is_below at.now path.now ≡ false) (λ rest. path.now ≡ at.now ++ rest.now) }
    ensures bounds { MatchOption result (is_below at.now path.now ≡ false) (λ rest. IsPath rest.now) }
{
    path.names().strip_prefix(at.names())
}

/// The path of these names.
fn path_of(alloc: Global, names: &[Name]) -> Result<FsPath, NoMemory>
    requires { IsPath names.now }
    ensures { IfOk result (λ p. p ≡ names.now) }
{
    let mut path = FsPath::root(alloc);
    for name in names {
        path = path.child(name)?;
    }
    Ok(path)
}
