//! The list that a disk boots, as `boot_read` reads it.
use crate::entries::told_unread;
use crate::failing::fresh;
use crate::members::add_deployment;
use boot_read::{BootRow, EntryFault, ListFault, read_list};
use fs_memory::{FailAt, MemFs};
use fs_trait::{Fs, FsErr};
use ost_types::FsPath;
use sheet::{Stop, text};
use std::alloc::Global;

/// The rows with `,` between them, `-` is none; or the fault.
pub fn read<F: Fs>(alloc: Global, fs: &mut F) -> Result<Vec<u8>, Stop> {
    match read_list(alloc, fs) {
        Ok(rows) => told_rows(alloc, &rows),
        Err(fault) => told_fault(alloc, &fault),
    }
}

fn told_rows(alloc: Global, rows: &[BootRow]) -> Result<Vec<u8>, Stop> {
    if rows.is_empty() {
        return text(alloc, "-");
    }
    let mut told = Vec::new(alloc);
    for row in rows {
        if !told.is_empty() {
            told.push(b',')?;
        }
        add_row(alloc, &mut told, row)?;
    }
    Ok(told)
}

// The entry's file and version, the deployment with its words, and the link's sum and number, with `|` between any two.
fn add_row(alloc: Global, told: &mut Vec<u8>, row: &BootRow) -> Result<(), Stop> {
    add_entry(alloc, told, row)?;
    add_deployment(alloc, told, &row.id, &row.kargs)?;
    add_link(alloc, told, row)
}

fn add_entry(alloc: Global, told: &mut Vec<u8>, row: &BootRow) -> Result<(), Stop> {
    let version = format!(in alloc; "|{}|", row.version)?;
    told.extend_from_slice(row.file.as_slice())?;
    told.extend_from_slice(version.as_bytes())?;
    Ok(())
}

fn add_link(alloc: Global, told: &mut Vec<u8>, row: &BootRow) -> Result<(), Stop> {
    let number = format!(in alloc; "/{}", row.number)?;
    told.push(b'|')?;
    told.extend_from_slice(&row.bootcsum.to_hex())?;
    told.extend_from_slice(number.as_bytes())?;
    Ok(())
}

fn told_fault(alloc: Global, fault: &ListFault) -> Result<Vec<u8>, Stop> {
    match fault {
        ListFault::BadLink(path) => told_at(alloc, "bad_link", path),
        ListFault::TooMany(path) => told_at(alloc, "too_many", path),
        ListFault::BadEntry(path, fault) => told_entry(alloc, path, *fault),
        ListFault::NoDeployment(path) => told_at(alloc, "no_deployment", path),
        ListFault::Fs(error) => told_error(alloc, *error),
        ListFault::NoMemory => Err(Stop::NoMemory),
    }
}

fn told_error(alloc: Global, error: FsErr) -> Result<Vec<u8>, Stop> {
    match error {
        FsErr::Failed => text(alloc, "failed"),
        FsErr::NoMemory => Err(Stop::NoMemory),
        _ => Err(Stop::Unknown),
    }
}

// What is wrong with an entry stands behind its path.
fn told_entry(alloc: Global, path: &FsPath, fault: EntryFault) -> Result<Vec<u8>, Stop> {
    match fault {
        EntryFault::TooLong => told_at(alloc, "too_long", path),
        EntryFault::Unread(fault) => {
            let mut told = told_at(alloc, "unread", path)?;
            told.push(b' ')?;
            told.extend_from_slice(&told_unread(alloc, fault)?)?;
            Ok(told)
        }
    }
}

fn told_at(alloc: Global, word: &str, path: &FsPath) -> Result<Vec<u8>, Stop> {
    let mut told = text(alloc, word)?;
    told.push(b' ')?;
    told.extend_from_slice(path.text()?.as_slice())?;
    Ok(told)
}

/// How many calls a reading makes, each of which fails in turn: it then has to tell that it failed.
pub fn read_failing(alloc: Global, disk: &MemFs) -> Result<Vec<u8>, Stop> {
    for call in 1..2000u64 {
        if !fails_at(alloc, disk, call)? {
            let count = format!(in alloc; "{} failed", call - 1)?;
            return text(alloc, count.as_str());
        }
    }
    Err(Stop::Unknown)
}

// Whether there was such a call.
fn fails_at(alloc: Global, disk: &MemFs, call: u64) -> Result<bool, Stop> {
    let mut fs = fresh(alloc, disk)?;
    fs.disk
        .fail_at(vec![in alloc; FailAt { call, done: false }]?);
    let told = read(alloc, &mut fs)?;
    if fs.disk.faults() == 0 {
        return Ok(false);
    }
    match told.as_slice() {
        b"failed" => Ok(true),
        _ => Err(Stop::Unknown),
    }
}
