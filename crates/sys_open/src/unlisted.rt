//! What no list boots: deployments that the list doesn't name, their origin files, and links by which a list was to boot (OSTree manual,
//! "Deployments").
ghost use Rattle.std.specs.Prelude.{◌≡◌, ◌↔◌, Some, IfOk, IsTrue};
ghost use Rattle.fs_trait.specs.View.{View};
ghost use Rattle.fs_trait.specs.Effect.{IsQuiet};
ghost use Rattle.boot_read.specs.Rows.{AreRowsOf};
ghost use Rattle.deploy_clean.specs.Unlisted.{IsUnlisted};
ghost use Rattle.sys_open.specs.Faults.{HasReason};
ghost use Rattle.sys_open.specs.LeftOver.{AreLeftOvers, Gathers, IsThere, IsUnlistedAt, IsUnlistedIn};
ghost use Rattle.durable_list.specs.Standing.{HasLoader, ids_of};
ghost use Rattle.sys_open.specs.Walk.{Finds};

use crate::fault::{OpenFault, refused};
use crate::inside::names_in;
use boot_model::DepId;
use boot_plan::{boot_link_stage_path, loader_path, loader_stage_path};
use boot_read::BootRow;
use deploy_clean::{deployed_path, deployments_path, is_unlisted_name};
use fs_trait::Fs;
use ost_types::{FsPath, Name, NoMemory, TryCopy};
use ref_room::{Stands, look_at};
use repo_layout::{Folder, OsName, folder_path};
use std::alloc::Global;

/// The paths of all that no list boots, where these are the rows of the list that the disk boots. Deployments are among them only where a
/// list is selected.
pub fn left_overs<F: Fs>(
    alloc: Global,
    fs: &mut F,
    rows: &[BootRow],
) -> Result<Vec<FsPath>, OpenFault>
    ensures told { (v : View) → F.view fs.old ≡ Some v → AreRowsOf v.now rows.now → Finds (λ paths. AreLeftOvers v.now paths.items) result }
    ensures quiet { IsQuiet (F.clock fs.old) (F.clock fs.new) (F.was fs.old) (F.was fs.new) (F.view fs.old) (F.view fs.new) }
    ensures reason { HasReason (F.faults fs.old) (F.faults fs.new) result }
{
    let mut found = Vec::new(alloc);
    found.push(loader_stage_path(alloc)?)?;
    found.push(boot_link_stage_path(alloc)?)?;
    let is_selected = has_loader(alloc, fs)?;
    if !is_selected {
        return Ok(found);
    }
    let listed = ids_of(alloc, rows)?;
    add_all(alloc, fs, listed.as_slice(), &mut found)?;
    Ok(found)
}

/// Whether a list is selected. Without the boot loader's link nobody knows what boots: its folder may just not be mounted.
pub fn has_loader<F: Fs>(alloc: Global, fs: &mut F) -> Result<bool, OpenFault>
    ensures told { (v : View) → F.view fs.old ≡ Some v → Finds (λ found. IsTrue found ↔ HasLoader v.now) result }
    ensures quiet { IsQuiet (F.clock fs.old) (F.clock fs.new) (F.was fs.old) (F.was fs.new) (F.view fs.old) (F.view fs.new) }
    ensures reason { HasReason (F.faults fs.old) (F.faults fs.new) result }
{
    let at = loader_path(alloc)?;
    match look_at(fs, &at) {
        Ok(Stands::Nothing) => Ok(false),
        Ok(Stands::Folder) => Ok(true),
        Ok(Stands::Leaf) => Ok(true),
        Err(error) => Err(refused(&at, error)),
    }
}

/// The deployments of the list.
pub fn ids_of(alloc: Global, rows: &[BootRow]) -> Result<Vec<DepId>, NoMemory>
    ensures { IfOk result (λ ids. ids.items ≡ ids_of rows.now) }
{
    let mut ids = Vec::with_capacity(alloc, rows.len())?;
    for row in rows {
        ids.push(row.id.copy()?)?;
    }
    Ok(ids)
}

/// Adds the paths at which a deployment stands that isn't listed, or its origin file, of each stateroot.
pub fn add_all<F: Fs>(
    alloc: Global,
    fs: &mut F,
    listed: &[DepId],
    found: &mut Vec<FsPath>,
) -> Result<(), OpenFault>
    ensures told { (v : View) → F.view fs.old ≡ Some v → Finds (λ _. Gathers (IsUnlisted listed.now) (IsThere (IsUnlisted listed.now) v.now) found.old.items found.new.items) result }
    ensures quiet { IsQuiet (F.clock fs.old) (F.clock fs.new) (F.was fs.old) (F.was fs.new) (F.view fs.old) (F.view fs.new) }
    ensures reason { HasReason (F.faults fs.old) (F.faults fs.new) result }
{
    let stateroots = folder_path(alloc, Folder::Deploy)?;
    let names = names_in(alloc, fs, &stateroots)?;
    for name in names.as_slice() {
        add_stateroot(alloc, fs, listed, name, found)?;
    }
    Ok(())
}

// those under this name, where it is that of a stateroot
fn add_stateroot<F: Fs>(
    alloc: Global,
    fs: &mut F,
    listed: &[DepId],
    name: &Name,
    found: &mut Vec<FsPath>,
) -> Result<(), OpenFault>
    ensures told { (v : View) → F.view fs.old ≡ Some v → Finds (λ _. Gathers (IsUnlisted listed.now) (IsThere (IsUnlistedIn listed.now name.now) v.now) found.old.items found.new.items) result }
    ensures quiet { IsQuiet (F.clock fs.old) (F.clock fs.new) (F.was fs.old) (F.was fs.new) (F.view fs.old) (F.view fs.new) }
    ensures reason { HasReason (F.faults fs.old) (F.faults fs.new) result }
{
    let stateroot = OsName::parse(alloc, name.as_slice())?;
    match stateroot {
        Some(os) => add_deployments(alloc, fs, listed, &os, found),
        None => Ok(()),
    }
}

fn add_deployments<F: Fs>(
    alloc: Global,
    fs: &mut F,
    listed: &[DepId],
    os: &OsName,
    found: &mut Vec<FsPath>,
) -> Result<(), OpenFault>
    ensures told { (v : View) → F.view fs.old ≡ Some v → Finds (λ _. Gathers (IsUnlisted listed.now) (IsThere (IsUnlistedIn listed.now os.now) v.now) found.old.items found.new.items) result }
    ensures quiet { IsQuiet (F.clock fs.old) (F.clock fs.new) (F.was fs.old) (F.was fs.new) (F.view fs.old) (F.view fs.new) }
    ensures reason { HasReason (F.faults fs.old) (F.faults fs.new) result }
{
    let folder = deployments_path(alloc, os)?;
    let names = names_in(alloc, fs, &folder)?;
    for name in names.as_slice() {
        add_named(alloc, listed, os, name, found)?;
    }
    Ok(())
}

fn add_named(
    alloc: Global,
    listed: &[DepId],
    os: &OsName,
    name: &Name,
    found: &mut Vec<FsPath>,
) -> Result<(), NoMemory>
    ensures { IfOk result (λ _. Gathers (IsUnlisted listed.now) (IsUnlistedAt listed.now os.now name.now) found.old.items found.new.items) }
{
    let is_unlisted = is_unlisted_name(alloc, listed, os, name.as_slice())?;
    if is_unlisted {
        let at = deployed_path(alloc, os, name)?;
        found.push(at)?;
    }
    Ok(())
}
