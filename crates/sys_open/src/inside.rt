//! What stands at the places of the layout that have many names.
ghost use Rattle.std.specs.Prelude.{◌≡◌, [], Some, IfOk, codes, true};
ghost use Rattle.ost_types.specs.Path.{Name, under};
ghost use Rattle.ost_types.specs.Text.{IsName};
ghost use Rattle.fs_trait.specs.View.{View};
ghost use Rattle.fs_trait.specs.Image.{is_folder};
ghost use Rattle.fs_trait.specs.Effect.{IsListing, IsQuiet};
ghost use Rattle.repo_layout.specs.declared.folder.Folder.TheVariants as layout;
ghost use Rattle.repo_layout.specs.OsName.{IsOsName};
ghost use Rattle.repo_layout.specs.Paths.{folder_path};
ghost use Rattle.sys_open.specs.declared.fault.Why.TheVariants.{WrongKind};
ghost use Rattle.layout_rules.specs.declared.many.Many.TheVariants.{Kernels, Stateroots};
ghost use Rattle.sys_open.specs.Faults.{HasReason};
ghost use Rattle.layout_rules.specs.Checks.{AsksIn, AsksInside};
ghost use Rattle.layout_rules.specs.Many.{IsKernelName, folder_of};
ghost use Rattle.sys_open.specs.Walk.{Finds, IsLeastWrong, Walked};

use crate::fault::{OpenFault, refused};
use crate::kinds::check_rule;
use crate::least::{damage, lesser};
use fs_trait::Fs;
use layout_rules::{Many, Rule, folder_of, is_copy_name, is_name_of};
use ost_types::{FsPath, Name, Names, NoMemory};
use ref_room::{Stands, look_at};
use repo_layout::folder_path;
use std::alloc::Global;

/// Looks at each of these places, for the least path at which something stands that they don't allow.
pub fn check_inside<F: Fs>(alloc: Global, fs: &mut F) -> Result<Option<FsPath>, OpenFault>
    ensures told { (v : View) → F.view fs.old ≡ Some v → Finds (IsLeastWrong (AsksInside v.now)) result }
    ensures quiet { IsQuiet (F.clock fs.old) (F.clock fs.new) (F.was fs.old) (F.was fs.new) (F.view fs.old) (F.view fs.new) }
    ensures reason { HasReason (F.faults fs.old) (F.faults fs.new) result }
{
    let kernels = damage(check_many(alloc, fs, Many::Kernels))?;
    let stateroots = damage(check_many(alloc, fs, Many::Stateroots))?;
    let objects = damage(check_many(alloc, fs, Many::Objects))?;
    let marks = damage(check_many(alloc, fs, Many::Marks))?;
    let roots = lesser(kernels, stateroots);
    let repository = lesser(objects, marks);
    Ok(lesser(roots, repository))
}

fn check_many<F: Fs>(alloc: Global, fs: &mut F, many: Many) -> Result<(), OpenFault>
    ensures told { (v : View) → F.view fs.old ≡ Some v → Walked (AsksIn many v.now) WrongKind [] result }
    ensures quiet { IsQuiet (F.clock fs.old) (F.clock fs.new) (F.was fs.old) (F.was fs.new) (F.view fs.old) (F.view fs.new) }
    ensures reason { HasReason (F.faults fs.old) (F.faults fs.new) result }
{
    let folder = folder_path(alloc, folder_of(many))?;
    check_names(alloc, fs, many, &folder)
}

fn check_names<F: Fs>(
    alloc: Global,
    fs: &mut F,
    many: Many,
    folder: &FsPath,
) -> Result<(), OpenFault>
    requires { folder.now ≡ folder_path (folder_of many) }
    ensures told { (v : View) → F.view fs.old ≡ Some v → Walked (AsksIn many v.now) WrongKind folder.now result }
    ensures quiet { IsQuiet (F.clock fs.old) (F.clock fs.new) (F.was fs.old) (F.was fs.new) (F.view fs.old) (F.view fs.new) }
    ensures reason { HasReason (F.faults fs.old) (F.faults fs.new) result }
{
    let names = names_in(alloc, fs, folder)?;
    for name in names.as_slice() {
        check_name(alloc, fs, many, folder, name)?;
    }
    Ok(())
}

// looks at what stands under a name in the folder
fn check_name<F: Fs>(
    alloc: Global,
    fs: &mut F,
    many: Many,
    folder: &FsPath,
    name: &Name,
) -> Result<(), OpenFault>
    requires { folder.now ≡ folder_path (folder_of many) }
    ensures told { (v : View) → F.view fs.old ≡ Some v → Walked (AsksIn many v.now) WrongKind (under folder.now name.now) result }
    ensures quiet { IsQuiet (F.clock fs.old) (F.clock fs.new) (F.was fs.old) (F.was fs.new) (F.view fs.old) (F.view fs.new) }
    ensures reason { HasReason (F.faults fs.old) (F.faults fs.new) result }
{
    if !is_name_of(alloc, many, name.as_slice())? {
        return Ok(());
    }
    let at = folder.child(name)?;
    match many {
        Many::Kernels => check_kernel(alloc, fs, &at),
        Many::Stateroots => check_stateroot(alloc, fs, &at),
        Many::Objects => check_rule(fs, &at, Rule::FolderOrNothing),
        Many::Marks => check_rule(fs, &at, Rule::FileOrNothing),
    }
}

// a stateroot's folder, and the one of its deployments
fn check_stateroot<F: Fs>(alloc: Global, fs: &mut F, at: &FsPath) -> Result<(), OpenFault>
    requires { (os : Name) × IsName os × IsOsName os × (at.now ≡ under (folder_path layout.Deploy) os) }
    ensures told { (v : View) → F.view fs.old ≡ Some v → Walked (AsksIn Stateroots v.now) WrongKind at.now result }
    ensures quiet { IsQuiet (F.clock fs.old) (F.clock fs.new) (F.was fs.old) (F.was fs.new) (F.view fs.old) (F.view fs.new) }
    ensures reason { HasReason (F.faults fs.old) (F.faults fs.new) result }
{
    check_rule(fs, at, Rule::FolderOrNothing)?;
    let deployments = deployments_of(alloc, at)?;
    check_rule(fs, &deployments, Rule::FolderOrNothing)
}

fn deployments_of(alloc: Global, at: &FsPath) -> Result<FsPath, NoMemory>
    requires { (os : Name) × IsName os × IsOsName os × (at.now ≡ under (folder_path layout.Deploy) os) }
    ensures { IfOk result (λ p. p ≡ under at.now (codes "deploy")) }
{
    let Some(name) = Name::parse(alloc, b"deploy")? else {
        unreachable!()
    };
    at.child(&name)
}

// the folder of a kernel's copies, and what stands in it
fn check_kernel<F: Fs>(alloc: Global, fs: &mut F, at: &FsPath) -> Result<(), OpenFault>
    requires { (name : Name) × IsName name × IsKernelName name × (at.now ≡ under (folder_path layout.Kernels) name) }
    ensures told { (v : View) → F.view fs.old ≡ Some v → Walked (AsksIn Kernels v.now) WrongKind at.now result }
    ensures quiet { IsQuiet (F.clock fs.old) (F.clock fs.new) (F.was fs.old) (F.was fs.new) (F.view fs.old) (F.view fs.new) }
    ensures reason { HasReason (F.faults fs.old) (F.faults fs.new) result }
{
    check_rule(fs, at, Rule::FolderOrNothing)?;
    let names = names_in(alloc, fs, at)?;
    for name in names.as_slice() {
        check_copy(fs, at, name)?;
    }
    Ok(())
}

fn check_copy<F: Fs>(fs: &mut F, folder: &FsPath, name: &Name) -> Result<(), OpenFault>
    requires { (kernel : Name) × IsName kernel × IsKernelName kernel × (folder.now ≡ under (folder_path layout.Kernels) kernel) }
    ensures told { (v : View) → F.view fs.old ≡ Some v → Walked (AsksIn Kernels v.now) WrongKind (under folder.now name.now) result }
    ensures quiet { IsQuiet (F.clock fs.old) (F.clock fs.new) (F.was fs.old) (F.was fs.new) (F.view fs.old) (F.view fs.new) }
    ensures reason { HasReason (F.faults fs.old) (F.faults fs.new) result }
{
    if is_copy_name(name.as_slice()) {
        let at = folder.child(name)?;
        check_rule(fs, &at, Rule::NoFolder)
    } else {
        Ok(())
    }
}

/// The names of all that stands in the folder at a path; none where no folder stands there.
pub fn names_in<F: Fs>(alloc: Global, fs: &mut F, at: &FsPath) -> Result<Names, OpenFault>
    ensures told { (v : View) → F.view fs.old ≡ Some v → Finds (IsListing v.now at.now) result }
    ensures quiet { IsQuiet (F.clock fs.old) (F.clock fs.new) (F.was fs.old) (F.was fs.new) (F.view fs.old) (F.view fs.new) }
    ensures reason { HasReason (F.faults fs.old) (F.faults fs.new) result }
{
    match look_at(fs, at) {
        Ok(Stands::Folder) => list(fs, at),
        Ok(Stands::Leaf) => Ok(Names::new(alloc)),
        Ok(Stands::Nothing) => Ok(Names::new(alloc)),
        Err(error) => Err(refused(at, error)),
    }
}

fn list<F: Fs>(fs: &mut F, at: &FsPath) -> Result<Names, OpenFault>
    requires { (v : View) → F.view fs.old ≡ Some v → is_folder (v.now.at at.now) ≡ true }
    ensures told { (v : View) → F.view fs.old ≡ Some v → Finds (IsListing v.now at.now) result }
    ensures quiet { IsQuiet (F.clock fs.old) (F.clock fs.new) (F.was fs.old) (F.was fs.new) (F.view fs.old) (F.view fs.new) }
    ensures reason { HasReason (F.faults fs.old) (F.faults fs.new) result }
{
    match fs.list(at) {
        Ok(names) => Ok(names),
        Err(error) => Err(refused(at, error)),
    }
}
