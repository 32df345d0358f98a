//! The paths of the names in a folder.
ghost use Rattle.std.specs.Prelude.{◌≡◌, All, IfOk, map, reverse};
ghost use Rattle.ost_types.specs.Path.{IsPath, under};
ghost use Rattle.tree_scan.specs.Steps.{AllFit};

use ost_types::{FsPath, Name, NoMemory};
use std::alloc::Global;

/// Whether the path of each of the names in the folder is within the bounds of paths.
pub(crate) fn all_fit(folder: &FsPath, names: &[Name]) -> bool
    ensures { AllFit folder.now names.now result }
{
    for name in names {
        if !folder.can_hold(name) {
            return false;
        }
    }
    true
}

/// The paths of the names in the folder, the last one first.
pub(crate) fn children_of(
    alloc: Global,
    folder: &FsPath,
    names: &[Name],
) -> Result<Vec<FsPath>, NoMemory>
    requires { All (λ x. IsPath (under folder.now x)) names.now }
    ensures { IfOk result (λ below. reverse below.items ≡ map (under folder.now) names.now) }
{
    let mut below = Vec::with_capacity(alloc, names.len())?;
    for name in names {
        below.push(folder.child(name)?)?;
    }
    below.reverse();
    Ok(below)
}
