ghost use Rattle.std.specs.Prelude.{◌≡◌, ◌++◌, IfOk, IfErr, OnOk, IfSome};
ghost use Rattle.std.specs.Option.{option_copied};
ghost use Rattle.ost_types.specs.Path.{Path};
ghost use Rattle.ost_types.specs.PathMap.{IsAscending, IsNode, paths_of};
ghost use Rattle.etc_merge.specs.Entries.{AllBefore, entry_of};
ghost use Rattle.etc_merge.specs.Merging.{AreTrees, IsConflict, IsMerge, IsRefused, IsTreeMap};
ghost use Rattle.etc_merge.specs.Steps.{IsMergedBy};

use crate::conflicts::conflict;
use crate::entries::{Entry, from_path};
use crate::fault::MergeFault;
use crate::next::next_of;
use crate::step::step_at;
use ost_types::{FsPath, NoMemory, NodeName, PathMap, TryCopy};
use std::alloc::Global;

/// The merge of three trees by path, each a folder at its root: what was there at first, what is there now, and what is to be there from
/// now on.
pub fn merge(
    alloc: Global,
    base: &PathMap,
    current: &PathMap,
    new: &PathMap,
) -> Result<PathMap, MergeFault>
    requires { AreTrees base.now current.now new.now }
    ensures merged { IfOk result (IsMerge base.now current.now new.now) }
    ensures agrees { IfOk result (λ _. (p : Path) → IsConflict base.now current.now new.now p → ⊥) }
    ensures tree { IfOk result IsTreeMap }
    ensures refused { IfErr result (IsRefused base.now current.now new.now) }
{
    let entries = current.as_slice();
    if let Some(at) = conflict(base, current, new) {
        return Err(MergeFault::EtcConflict(entries[at].0.copy()?));
    }
    Ok(merged(alloc, base, current, new)?)
}

fn merged(
    alloc: Global,
    base: &PathMap,
    current: &PathMap,
    new: &PathMap,
) -> Result<PathMap, NoMemory>
    requires { AreTrees base.now current.now new.now }
    ensures { IfOk result (IsMergedBy base.now current.now new.now) }
{
    let mut merged = PathMap::new(alloc);
    let mut before = base.as_slice();
    let mut current_left = current.as_slice();
    let mut new_left = new.as_slice();
    let mut gone = None;
    while let Some(next) = next_of(current_left, new_left) {
        before = from_path(before, next.path);
        let step = step_at(before, gone, &next);
        put(&mut merged, next.path, step.node)?;
        gone = step.gone;
        current_left = next.current_left;
        new_left = next.new_left;
    }
    Ok(merged)
}

/// Adds the node at the path, if there is one.
fn put(merged: &mut PathMap, path: &FsPath, node: Option<&NodeName>) -> Result<(), NoMemory>
    requires sorted { IsAscending (paths_of merged.old) }
    requires before { AllBefore merged.old path.now }
    requires node { IfSome (option_copied node) IsNode }
    ensures { OnOk result (merged.new ≡ merged.old ++ entry_of path.now (option_copied node.entry)) }
{
    match node {
        Some(node) => merged.push(path.copy()?, node.copy()?),
        None => Ok(()),
    }
}
