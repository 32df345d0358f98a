ghost use Rattle.std.specs.Prelude.{◌≡◌, ◌≢◌, ◌≤◌, ◌+◌, List, ℕ, length, All, Some, IfOk, IfErr, true};
ghost use Rattle.ost_types.specs.Path.{Name};
ghost use Rattle.fs_trait.specs.View.{View};
ghost use Rattle.fs_trait.specs.Image.{is_folder};
ghost use Rattle.fs_trait.specs.Effect.{IsListing, IsQuiet};
ghost use Rattle.sys_open.specs.declared.fault.OpenFault.TheVariants as fault;
ghost use Rattle.sys_open.specs.Faults.{HasReason};
ghost use Rattle.layout_rules.specs.Checks.{IsReached};
ghost use Rattle.sys_open.specs.Walk.{AreReached, Looked, paths_in};

use crate::fault::{OpenFault, Why, damaged, refused};
use fs_trait::Fs;
use ost_types::{FsPath, Name, Names};
use std::alloc::Global;

/// The paths of all that stands in a folder, ascending. The folder is told as damaged where a name in it is too long for a path.
pub fn children<F: Fs>(
    alloc: Global,
    fs: &mut F,
    at: &FsPath,
    why: Why,
) -> Result<Vec<FsPath>, OpenFault>
    ensures told { (v : View) → F.view fs.old ≡ Some v → is_folder (v.now.at at.now) ≡ true → Looked (IsReached v.now at.now) why at.now result }
    ensures listed { IfOk result (λ paths. (names : List Name) × (paths.items ≡ paths_in at.now names) × ((v : View) → F.view fs.old ≡ Some v → IsListing v.now at.now names)) }
    ensures deeper { IfOk result (λ paths. All (λ p. (length p ≡ length at.now + 1) × (length p ≤ 80)) paths.items) }
    ensures quiet { IsQuiet (F.clock fs.old) (F.clock fs.new) (F.was fs.old) (F.was fs.new) (F.view fs.old) (F.view fs.new) }
    ensures reason { HasReason (F.faults fs.old) (F.faults fs.new) result }
{
    match fs.list(at) {
        Ok(names) => paths_of(alloc, at, names.as_slice(), why),
        Err(error) => Err(refused(at, error)),
    }
}

// the paths of the names in the folder
fn paths_of(
    alloc: Global,
    folder: &FsPath,
    names: &[Name],
    why: Why,
) -> Result<Vec<FsPath>, OpenFault>
    ensures told { Looked (AreReached folder.now names.now) why folder.now result }
    ensures ok { IfOk result (λ paths. paths.items ≡ paths_in folder.now names.now) }
    ensures deeper { IfOk result (λ paths. All (λ p. (length p ≡ length folder.now + 1) × (length p ≤ 80)) paths.items) }
    ensures no_call { IfErr result (λ e. e ≢ fault.Disk) }
{
    let mut paths = Vec::with_capacity(alloc, names.len())?;
    for name in names {
        if !folder.can_hold(name) {
            return Err(damaged(folder, why));
        }
        paths.push(folder.child(name)?)?;
    }
    Ok(paths)
}
