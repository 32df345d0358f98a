//! What stays of deployments and isn't compared with a commit: a later list may not name it, and then an opening has to remove it.
ghost use Rattle.std.specs.Prelude.{◌≡◌, [], Some, IfOk};
ghost use Rattle.fs_trait.specs.View.{View};
ghost use Rattle.fs_trait.specs.Effect.{IsQuiet};
ghost use Rattle.durable_list.specs.Standing.{ids_of};
ghost use Rattle.sys_open.specs.Faults.{HasReason};
ghost use Rattle.durable_deployments.specs.Bounds.{IsOfBoot};
ghost use Rattle.sys_open.specs.LeftOver.{AreStaying, Gathers, IsOwnOf, IsOwnPath, all_versioned};
ghost use Rattle.sys_open.specs.Walk.{Finds};

use crate::fault::OpenFault;
use crate::unlisted::{add_all, has_loader, ids_of};
use boot_model::DepId;
use boot_plan::loader_path;
use boot_read::BootRow;
use deployment_build::origin_path;
use deployment_check::etc_path;
use fs_trait::Fs;
use ost_types::{FsPath, NoMemory};
use repo_layout::{Fixed, Version, fixed_path};
use std::alloc::Global;

/// The paths of what is a listed deployment's own, where these are the rows of the list; those of what the boot loader follows; and where no
/// list is selected those of all other deployments that stand.
pub fn staying<F: Fs>(alloc: Global, fs: &mut F, rows: &[BootRow]) -> Result<Vec<FsPath>, OpenFault>
    ensures told { (v : View) → F.view fs.old ≡ Some v → Finds (λ paths. AreStaying v.now (ids_of rows.now) paths.items) result }
    ensures quiet { IsQuiet (F.clock fs.old) (F.clock fs.new) (F.was fs.old) (F.was fs.new) (F.view fs.old) (F.view fs.new) }
    ensures reason { HasReason (F.faults fs.old) (F.faults fs.new) result }
{
    let listed = ids_of(alloc, rows)?;
    let mut found = own_paths(alloc, listed.as_slice())?;
    add_boot(alloc, &mut found)?;
    let is_selected = has_loader(alloc, fs)?;
    if is_selected {
        return Ok(found);
    }
    add_all(alloc, fs, listed.as_slice(), &mut found)?;
    Ok(found)
}

fn own_paths(alloc: Global, listed: &[DepId]) -> Result<Vec<FsPath>, NoMemory>
    ensures { IfOk result (λ paths. Gathers (IsOwnOf listed.now) (IsOwnOf listed.now) [] paths.items) }
{
    let mut found = Vec::new(alloc);
    for id in listed {
        add_own(alloc, id, &mut found)?;
    }
    Ok(found)
}

// the `etc` of the deployment, and its origin file
fn add_own(alloc: Global, id: &DepId, found: &mut Vec<FsPath>) -> Result<(), NoMemory>
    ensures { IfOk result (λ _. Gathers (IsOwnPath id.now) (IsOwnPath id.now) found.old.items found.new.items) }
{
    let etc = etc_path(alloc, id)?;
    let origin = origin_path(alloc, id)?;
    found.push(etc)?;
    found.push(origin)?;
    Ok(())
}

// the paths of what the boot loader follows, or may once another list is laid out
fn add_boot(alloc: Global, found: &mut Vec<FsPath>) -> Result<(), NoMemory>
    ensures { IfOk result (λ _. Gathers IsOfBoot IsOfBoot found.old.items found.new.items) }
{
    let loader = loader_path(alloc)?;
    found.push(loader)?;
    for fixed in versioned() {
        let at = fixed_path(alloc, *fixed)?;
        found.push(at)?;
    }
    Ok(())
}

fn versioned() -> &'static [Fixed]
    ensures { result.now ≡ all_versioned }
{
    &[
        Fixed::LoaderFolder(Version::Zero),
        Fixed::LoaderFolder(Version::One),
        Fixed::BootLink(Version::Zero),
        Fixed::BootLink(Version::One),
        Fixed::BootFolder(Version::Zero, Version::Zero),
        Fixed::BootFolder(Version::Zero, Version::One),
        Fixed::BootFolder(Version::One, Version::Zero),
        Fixed::BootFolder(Version::One, Version::One),
    ]
}
