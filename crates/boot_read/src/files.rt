//! The files of the entries of a version.
ghost use Rattle.std.specs.Prelude.{◌≡◌, ◌≤◌, ℕ, length, Some, IfOk, IfErr, MatchResult};
ghost use Rattle.fs_trait.specs.View.{View};
ghost use Rattle.fs_trait.specs.Effect.{IsListing, IsQuiet};
ghost use Rattle.repo_layout.specs.Fixed.{entries_path, number};
ghost use Rattle.boot_read.specs.declared.fault.ListFault.TheVariants as fault;
ghost use Rattle.boot_read.specs.Entries.{entries_limit};
ghost use Rattle.boot_read.specs.Faults.{HasCauseOf, HasFolders, IsFault, IsOfCall};
ghost use Rattle.boot_read.specs.Steps.{AreFiles, IsFileAt, IsPushed};

use crate::fault::ListFault;
use crate::places::entry_at;
use crate::reads::{is_entry_name, list_names, read_front};
use crate::texts::ENTRY_LIMIT;
use fs_trait::Fs;
use ost_types::{Bytes, FsPath, Name, NoMemory, TryCopy};
use repo_layout::{Fixed, Version, fixed_path};
use std::alloc::Global;

/// The most entries of a version.
const ENTRIES_LIMIT: usize = 8;

/// The file of an entry. One that is longer than an entry may be has one byte more than that here.
#[derive(Drop, Debug)]
pub(crate) struct EntryFile {
    pub name: Name,
    pub bytes: Bytes,
}

/// The files of the version's entries, ascending by their names, unless there are too many.
pub(crate) fn entry_files<F: Fs>(
    alloc: Global,
    fs: &mut F,
    loader: Version,
) -> Result<Vec<EntryFile>, ListFault>
    ensures told { (v : View) (sub : ℕ) → F.view fs.old ≡ Some v → HasFolders v.now (number loader) sub → MatchResult result (λ files. AreFiles v.now (number loader) files.items) (IsFault v.now) }
    ensures quiet { IsQuiet (F.clock fs.old) (F.clock fs.new) (F.was fs.old) (F.was fs.new) (F.view fs.old) (F.view fs.new) }
    ensures room { F.spare fs.old ≤ F.spare fs.new }
    ensures cause { HasCauseOf (F.faults fs.old) (F.faults fs.new) result }
{
    let folder = fixed_path(alloc, Fixed::Entries(loader))?;
    let names = list_names(fs, alloc, &folder)?;
    files_in(alloc, fs, loader, folder, names.as_slice())
}

// those among the names in the folder of entries
fn files_in<F: Fs>(
    alloc: Global,
    fs: &mut F,
    loader: Version,
    folder: FsPath,
    names: &[Name],
) -> Result<Vec<EntryFile>, ListFault>
    requires { folder ≡ entries_path (number loader) }
    ensures told { (v : View) (sub : ℕ) → F.view fs.old ≡ Some v → IsListing v.now folder names.now → HasFolders v.now (number loader) sub → MatchResult result (λ files. AreFiles v.now (number loader) files.items) (IsFault v.now) }
    ensures quiet { IsQuiet (F.clock fs.old) (F.clock fs.new) (F.was fs.old) (F.was fs.new) (F.view fs.old) (F.view fs.new) }
    ensures room { F.spare fs.old ≤ F.spare fs.new }
    ensures cause { HasCauseOf (F.faults fs.old) (F.faults fs.new) result }
{
    let mut files = Vec::with_capacity(alloc, ENTRIES_LIMIT)?;
    for name in names {
        let found = entry_file(alloc, fs, loader, name)?;
        if !push_file(&mut files, found)? {
            return Err(ListFault::TooMany(folder));
        }
    }
    Ok(files)
}

// adds the file that was found; false where there are as many as may be
fn push_file(files: &mut Vec<EntryFile>, found: Option<EntryFile>) -> Result<bool, NoMemory>
    requires { length files.old.items ≤ entries_limit }
    ensures { IfOk result (λ pushed. IsPushed files.old.items found pushed files.new.items) }
{
    let Some(file) = found else {
        return Ok(true);
    };
    if files.len() == ENTRIES_LIMIT {
        return Ok(false);
    }
    files.push(file)?;
    Ok(true)
}

// the file of this name, if it is an entry
fn entry_file<F: Fs>(
    alloc: Global,
    fs: &mut F,
    loader: Version,
    name: &Name,
) -> Result<Option<EntryFile>, ListFault>
    ensures told { (v : View) → F.view fs.old ≡ Some v → IfOk result (IsFileAt v.now (number loader) name.now) }
    ensures err { IfErr result IsOfCall }
    ensures quiet { IsQuiet (F.clock fs.old) (F.clock fs.new) (F.was fs.old) (F.was fs.new) (F.view fs.old) (F.view fs.new) }
    ensures room { F.spare fs.old ≤ F.spare fs.new }
    ensures cause { HasCauseOf (F.faults fs.old) (F.faults fs.new) result }
{
    if !is_entry_name(name) {
        return Ok(None);
    }
    let at = entry_at(alloc, loader, name)?;
    let front = read_front(fs, &at, ENTRY_LIMIT + 1)?;
    match front {
        None => Ok(None),
        Some(bytes) => named_file(name, bytes),
    }
}

fn named_file(name: &Name, bytes: Bytes) -> Result<Option<EntryFile>, ListFault>
    ensures value { IfOk result (λ o. o ≡ Some (record { name = name.now; bytes = bytes })) }
    ensures memory { IfErr result (λ e. e ≡ fault.NoMemory) }
{
    Ok(Some(EntryFile {
        name: name.copy()?,
        bytes,
    }))
}
