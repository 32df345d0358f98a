//! What the entries say.
ghost use Rattle.std.specs.Prelude.{◌≡◌, ◌≢◌, ◌<◌, ◌≤◌, ℕ, true, false, length, IfErr, IfOk, MatchResult};
ghost use Rattle.fs_trait.specs.View.{Disk};
ghost use Rattle.repo_layout.specs.Fixed.{number};
ghost use Rattle.boot_read.specs.declared.fault.EntryFault.TheVariants as entries;
ghost use Rattle.bls_entry.specs.declared.fault.BlsFault.TheVariants as bls;
ghost use Rattle.bls_entry.specs.Reading.{Reads};
ghost use Rattle.boot_read.specs.Entries.{IsRead, IsUnread, entry_limit};
ghost use Rattle.boot_read.specs.Faults.{HasFolders, IsFault, IsOfNoCall};
ghost use Rattle.boot_read.specs.Steps.{AreFiles, AreTexts, IsFileOf, TellsUnread};

use crate::fault::{EntryFault, ListFault};
use crate::files::EntryFile;
use crate::places::entry_at;
use bls_entry::{BlsEntry, BlsFault, read_entry};
use ost_types::{Bytes, Name, NoMemory, TryCopy};
use repo_layout::Version;
use std::alloc::Global;

/// The most bytes of a boot entry: 1 MiB.
pub const ENTRY_LIMIT: u32 = 1_048_576;

/// An entry that is read.
#[derive(Drop, Debug)]
pub(crate) struct EntryText {
    pub name: Name,
    pub entry: BlsEntry,
}

/// All entries, read, unless one can't be.
pub(crate) fn entry_texts(
    alloc: Global,
    loader: Version,
    files: &[EntryFile],
) -> Result<Vec<EntryText>, ListFault>
    ensures told { (d : Disk) (sub : ℕ) → HasFolders d (number loader) sub → AreFiles d (number loader) files.now → MatchResult result (λ texts. AreTexts d (number loader) texts.items) (IsFault d) }
    ensures no_call { IfErr result IsOfNoCall }
{
    let mut texts = Vec::with_capacity(alloc, files.len())?;
    for file in files {
        let entry = entry_of(alloc, loader, file)?;
        let name = file.name.copy()?;
        texts.push(EntryText { name, entry })?;
    }
    Ok(texts)
}

fn entry_of(alloc: Global, loader: Version, file: &EntryFile) -> Result<BlsEntry, ListFault>
    ensures told { (d : Disk) → IsFileOf d (number loader) file.now → MatchResult result (IsRead d (number loader) file.now.name) (TellsUnread d (number loader) file.now.name) }
    ensures no_call { IfErr result IsOfNoCall }
{
    if is_too_long(&file.bytes) {
        return Err(bad_entry(alloc, loader, &file.name, EntryFault::TooLong));
    }
    let read = read_bytes(alloc, &file.bytes);
    match read {
        Ok(entry) => Ok(entry),
        Err(fault) => Err(unread(alloc, loader, &file.name, fault)),
    }
}

fn is_too_long(bytes: &Bytes) -> bool
    ensures yes { result ≡ true → entry_limit < length bytes.now }
    ensures no { result ≡ false → length bytes.now ≤ entry_limit }
{
    bytes.as_slice().len() > ENTRY_LIMIT as usize
}

fn read_bytes(alloc: Global, bytes: &Bytes) -> Result<BlsEntry, BlsFault>
    ensures { Reads bytes.now result }
{
    read_entry(alloc, bytes.as_slice())
}

// what is told of an entry that has this fault
fn unread(alloc: Global, loader: Version, file: &Name, fault: BlsFault) -> ListFault
    ensures told { (d : Disk) → (fault ≢ bls.NoMemory → IsUnread d (number loader) file.now (entries.Unread fault)) → TellsUnread d (number loader) file.now result }
    ensures no_call { IsOfNoCall result }
{
    match kept_fault(fault) {
        Ok(kept) => bad_entry(alloc, loader, file, kept),
        Err(_) => ListFault::NoMemory,
    }
}

fn kept_fault(fault: BlsFault) -> Result<EntryFault, NoMemory>
    ensures { IfOk result (λ kept. (kept ≡ entries.Unread fault) × (fault ≢ bls.NoMemory)) }
{
    match fault {
        BlsFault::NoMemory => Err(NoMemory),
        BlsFault::BadLine(_) => Ok(EntryFault::Unread(fault)),
        BlsFault::NoOptions => Ok(EntryFault::Unread(fault)),
        BlsFault::NoOstree => Ok(EntryFault::Unread(fault)),
    }
}

fn bad_entry(alloc: Global, loader: Version, file: &Name, fault: EntryFault) -> ListFault
    ensures told { (d : Disk) → IsUnread d (number loader) file.now fault → TellsUnread d (number loader) file.now result }
    ensures no_call { IsOfNoCall result }
{
    match entry_at(alloc, loader, file) {
        Ok(at) => ListFault::BadEntry(at, fault),
        Err(_) => ListFault::NoMemory,
    }
}
