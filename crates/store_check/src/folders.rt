//! Folders of which all that they name is there.
ghost use Rattle.std.specs.Prelude.{◌≡◌, ◌≤◌, Contains, IsTrue, List, Some, OnOk, IfOk, IfErr, IfSome};
ghost use Rattle.fs_trait.specs.View.{View};
ghost use Rattle.fs_trait.specs.Effect.{HasCause, IsQuiet, OfNone};
ghost use Rattle.repo_model.specs.Objects.{Stores};
ghost use Rattle.repo_model.specs.Whole.{Complete};
ghost use Rattle.store_check.specs.Objects.{AreFound};
ghost use Rattle.store_check.specs.Extents.{IsKnown};
ghost use Rattle.store_check.specs.Folders.{AreKnown, CoversFiles, CoversFolders, WithFile, WithFolder};

use crate::extent::Extent;
use crate::found::{entries_of, is_listed, root_of};
use crate::kept::SoundObjects;
use fs_trait::{Fs, FsErr};
use ost_forms::{FileItem, FolderItem};
use ost_types::{Csum, Kind, Limits, ObjName};
use std::alloc::Global;
use std::collections::BTreeMap;

/// Folders that are whole, by the sums of their entries, with bounds on the paths below each.
pub type Folders = BTreeMap<Csum, Extent>;

// A path has at most 64 names.
const DEPTH: u32 = 65;

/// Whether the commit is whole within the limits, as far as each folder tells by itself. It looks into the folders that aren't
/// known yet, each once. Where it answers no, the tree of the commit decides.
pub fn is_whole<F: Fs>(
    alloc: Global,
    fs: &mut F,
    objects: &SoundObjects,
    limits: &Limits,
    known: &mut Folders,
    commit: &Csum,
) -> Result<bool, FsErr>
    requires found { (v : View) → F.view fs.old ≡ Some v → AreFound v.now limits.now objects.now }
    requires known { (v : View) → F.view fs.old ≡ Some v → AreKnown v.now limits.now.content known.old }
    ensures told { (v : View) → F.view fs.old ≡ Some v → IfOk result (λ b. IsTrue b → Complete (Stores v.now) limits.now commit.now) }
    ensures known { (v : View) → F.view fs.old ≡ Some v → OnOk result (AreKnown v.now limits.now.content known.new) }
    ensures named { (v : View) → F.view fs.old ≡ Some v → IfErr result OfNone }
    ensures quiet { IsQuiet (F.clock fs.old) (F.clock fs.new) (F.was fs.old) (F.was fs.new) (F.view fs.old) (F.view fs.new) }
    ensures keeps_room { F.spare fs.old ≤ F.spare fs.new }
    ensures cause { HasCause (F.faults fs.old) (F.faults fs.new) result }
{
    let Some(root) = root_of(alloc, fs, &objects.kept, commit, limits)? else {
        return Ok(false);
    };
    let attributes = ObjName {
        csum: root.1,
        kind: Kind::DirMeta,
    };
    if !is_listed(objects, &attributes) {
        return Ok(false);
    }
    match extent_of(alloc, fs, objects, limits, known, &root.0, DEPTH)? {
        Some(extent) => Ok(extent.paths < limits.paths as u64),
        None => Ok(false),
    }
}

/// Bounds on the paths below the folder whose entries have this sum, if all that it names is there, at most so many folders
/// deep, and within the limits.
#[cycle(extent)]
fn extent_of<F: Fs>(
    alloc: Global,
    fs: &mut F,
    objects: &SoundObjects,
    limits: &Limits,
    known: &mut Folders,
    tree: &Csum,
    depth: u32,
) -> Result<Option<Extent>, FsErr>
    requires found { (v : View) → F.view fs.old ≡ Some v → AreFound v.now limits.now objects.now }
    requires known { (v : View) → F.view fs.old ≡ Some v → AreKnown v.now limits.now.content known.old }
    ensures told { (v : View) → F.view fs.old ≡ Some v → IfOk result (λ o. IfSome o (IsKnown (Stores v.now) limits.now.content tree.now)) }
    ensures known { (v : View) → F.view fs.old ≡ Some v → OnOk result (AreKnown v.now limits.now.content known.new) }
    ensures named { (v : View) → F.view fs.old ≡ Some v → IfErr result OfNone }
    ensures quiet { IsQuiet (F.clock fs.old) (F.clock fs.new) (F.was fs.old) (F.was fs.new) (F.view fs.old) (F.view fs.new) }
    ensures keeps_room { F.spare fs.old ≤ F.spare fs.new }
    ensures cause { HasCause (F.faults fs.old) (F.faults fs.new) result }
{
    if let Some(extent) = known.get(tree) {
        return Ok(Some(*extent));
    }
    if depth == 0 {
        return Ok(None);
    }
    let Some(entries) = entries_of(alloc, fs, &objects.kept, tree, limits)? else {
        return Ok(None);
    };
    let Some(files) = files_extent(objects, entries.files.as_slice(), limits) else {
        return Ok(None);
    };
    let folders = entries.folders.as_slice();
    let Some(extent) = folders_extent(alloc, fs, objects, limits, known, folders, files, depth - 1)?
    else {
        return Ok(None);
    };
    match known.insert(*tree, extent) {
        Ok(_) => Ok(Some(extent)),
        Err(_) => Err(FsErr::NoMemory),
    }
}

/// The bounds with those of these folders.
#[cycle(extent)]
fn folders_extent<F: Fs>(
    alloc: Global,
    fs: &mut F,
    objects: &SoundObjects,
    limits: &Limits,
    known: &mut Folders,
    folders: &[FolderItem],
    files: Extent,
    depth: u32,
) -> Result<Option<Extent>, FsErr>
    requires found { (v : View) → F.view fs.old ≡ Some v → AreFound v.now limits.now objects.now }
    requires known { (v : View) → F.view fs.old ≡ Some v → AreKnown v.now limits.now.content known.old }
    ensures told { (v : View) → F.view fs.old ≡ Some v → IfOk result (λ o. IfSome o (CoversFolders v.now limits.now.content objects.now.names.items folders.now files)) }
    ensures known { (v : View) → F.view fs.old ≡ Some v → OnOk result (AreKnown v.now limits.now.content known.new) }
    ensures named { (v : View) → F.view fs.old ≡ Some v → IfErr result OfNone }
    ensures quiet { IsQuiet (F.clock fs.old) (F.clock fs.new) (F.was fs.old) (F.was fs.new) (F.view fs.old) (F.view fs.new) }
    ensures keeps_room { F.spare fs.old ≤ F.spare fs.new }
    ensures cause { HasCause (F.faults fs.old) (F.faults fs.new) result }
{
    let mut extent = files;
    for item in folders {
        match with_folder(alloc, fs, objects, limits, known, item, &extent, depth)? {
            Some(more) => extent = more,
            None => return Ok(None),
        }
    }
    Ok(Some(extent))
}

/// The bounds with those of this folder.
#[cycle(extent)]
fn with_folder<F: Fs>(
    alloc: Global,
    fs: &mut F,
    objects: &SoundObjects,
    limits: &Limits,
    known: &mut Folders,
    item: &FolderItem,
    extent: &Extent,
    depth: u32,
) -> Result<Option<Extent>, FsErr>
    requires found { (v : View) → F.view fs.old ≡ Some v → AreFound v.now limits.now objects.now }
    requires known { (v : View) → F.view fs.old ≡ Some v → AreKnown v.now limits.now.content known.old }
    ensures told { (v : View) → F.view fs.old ≡ Some v → IfOk result (λ o. IfSome o (WithFolder v.now limits.now.content objects.now.names.items item.now extent.now)) }
    ensures known { (v : View) → F.view fs.old ≡ Some v → OnOk result (AreKnown v.now limits.now.content known.new) }
    ensures named { (v : View) → F.view fs.old ≡ Some v → IfErr result OfNone }
    ensures quiet { IsQuiet (F.clock fs.old) (F.clock fs.new) (F.was fs.old) (F.was fs.new) (F.view fs.old) (F.view fs.new) }
    ensures keeps_room { F.spare fs.old ≤ F.spare fs.new }
    ensures cause { HasCause (F.faults fs.old) (F.faults fs.new) result }
{
    let attributes = ObjName {
        csum: item.meta,
        kind: Kind::DirMeta,
    };
    if !is_listed(objects, &attributes) {
        return Ok(None);
    }
    match extent_of(alloc, fs, objects, limits, known, &item.tree, depth)? {
        Some(below) => Ok(extent.with(&item.name, &below, limits)),
        None => Ok(None),
    }
}

/// Bounds on the paths of these files, if their objects are listed.
fn files_extent(objects: &SoundObjects, files: &[FileItem], limits: &Limits) -> Option<Extent>
    ensures { IfSome result (CoversFiles objects.now.names.items files.now) }
{
    let mut extent = Extent::none();
    for item in files {
        extent = with_file(objects, item, &extent, limits)?;
    }
    Some(extent)
}

fn with_file(
    objects: &SoundObjects,
    item: &FileItem,
    extent: &Extent,
    limits: &Limits,
) -> Option<Extent>
    ensures { IfSome result (WithFile objects.now.names.items item.now extent.now) }
{
    let name = ObjName {
        csum: item.file,
        kind: Kind::File,
    };
    if is_listed(objects, &name) {
        extent.with(&item.name, &Extent::none(), limits)
    } else {
        None
    }
}
