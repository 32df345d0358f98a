//! The names in a folder.
ghost use Rattle.std.specs.Prelude.{◌↔◌, All, IfOk, IsTrue};
ghost use Rattle.ost_types.specs.Path.{IsPath, under};
ghost use Rattle.checkout_compare.specs.Looking.{AllFit, IsFirstNew, IsNew};

use crate::etc::is_outside_etc;
use ost_types::{FsPath, Name, NoMemory, PathMap};

/// Whether the path of each of the names in the folder is within the bounds of paths.
pub(crate) fn all_fit(folder: &FsPath, names: &[Name]) -> bool
    ensures { AllFit folder.now names.now result }
{
    for name in names {
        if !folder.can_hold(name) {
            return false;
        }
    }
    true
}

/// The path of the first of the names in the folder that the tree doesn't have outside its `etc`.
pub(crate) fn first_new(
    tree: &PathMap,
    folder: &FsPath,
    names: &[Name],
) -> Result<Option<FsPath>, NoMemory>
    requires { All (λ x. IsPath (under folder.now x)) names.now }
    ensures { IfOk result (IsFirstNew tree.now folder.now names.now) }
{
    for name in names {
        let path = folder.child(name)?;
        if is_new(tree, &path) {
            return Ok(Some(path));
        }
    }
    Ok(None)
}

fn is_new(tree: &PathMap, path: &FsPath) -> bool
    ensures { IsTrue result ↔ IsNew tree.now path.now }
{
    is_outside_etc(path) && tree.get(path).is_none()
}
