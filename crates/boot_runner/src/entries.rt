//! Calls of `bls_entry`, and of `boot_model` on the texts of entries.
use crate::members::items_of;
use bls_entry::{BlsEntry, BlsFault, can_be_written, ostree_value, read_entry, write_entry};
use boot_model::{entry_text, link_number};
use repo_layout::Version;
use sheet::{Bench, Fields, Stop, bytes_of, number, text};
use std::alloc::Global;

#[derive(Drop)]
pub struct EntryBench;

impl Bench for EntryBench {
    fn answer(&mut self, name: &str, fields: Fields) -> Result<Vec<u8>, Stop> {
        let mut fields = fields;
        match name {
            "entry" => made(&mut fields),
            "place" => placed(&mut fields),
            _ => read(name, &mut fields),
        }
    }
}

// All fields together are the text of an entry, which has spaces.
fn read(name: &str, fields: &mut Fields) -> Result<Vec<u8>, Stop> {
    let alloc = fields.alloc();
    let bytes = bytes_of(alloc, fields.others().unwrap_or(""))?;
    match read_entry(alloc, &bytes) {
        Err(fault) => told_unread(alloc, fault),
        Ok(entry) => read_of(alloc, name, &entry),
    }
}

fn read_of(alloc: Global, name: &str, entry: &BlsEntry) -> Result<Vec<u8>, Stop> {
    match name {
        "reads" => text(alloc, "ok"),
        "read" => told(alloc, entry),
        "written" => written(alloc, entry),
        "leads" => leads(alloc, entry),
        _ => Err(Stop::Unknown),
    }
}

/// What is wrong with the text of an entry.
pub fn told_unread(alloc: Global, fault: BlsFault) -> Result<Vec<u8>, Stop> {
    match fault {
        BlsFault::BadLine(line) => told_line(alloc, line),
        BlsFault::NoOptions => text(alloc, "no_options"),
        BlsFault::NoOstree => text(alloc, "no_ostree"),
        BlsFault::NoMemory => Err(Stop::NoMemory),
    }
}

fn told_line(alloc: Global, line: u64) -> Result<Vec<u8>, Stop> {
    let told = format!(in alloc; "line {line}")?;
    text(alloc, told.as_str())
}

// The version, title, options, kernel and initramfs, with a `|` between any two.
fn told(alloc: Global, entry: &BlsEntry) -> Result<Vec<u8>, Stop> {
    let mut told = number(alloc, entry.version as u64)?;
    for part in [
        entry.title.as_str(),
        entry.options.as_str(),
        entry.linux.as_str(),
        initrd_of(entry),
    ] {
        add_part(&mut told, part)?;
    }
    Ok(told)
}

fn initrd_of(entry: &BlsEntry) -> &str {
    match &entry.initrd {
        Some(initrd) => initrd.as_str(),
        None => "none",
    }
}

fn add_part(told: &mut Vec<u8>, part: &str) -> Result<(), Stop> {
    told.push(b'|')?;
    told.extend_from_slice(part.as_bytes())?;
    Ok(())
}

fn written(alloc: Global, entry: &BlsEntry) -> Result<Vec<u8>, Stop> {
    if can_be_written(entry) {
        Ok(write_entry(alloc, entry)?.into_vec())
    } else {
        text(alloc, "none")
    }
}

fn leads(alloc: Global, entry: &BlsEntry) -> Result<Vec<u8>, Stop> {
    match ostree_value(entry.options.as_slice()) {
        Some(value) => Ok(Vec::from_slice(alloc, value)?),
        None => text(alloc, "none"),
    }
}

pub fn version(digit: &str) -> Result<Version, Stop> {
    match digit {
        "0" => Ok(Version::Zero),
        "1" => Ok(Version::One),
        _ => Err(Stop::Unknown),
    }
}

// A version of the loader, the number of a member from 0, and the list.
fn made(fields: &mut Fields) -> Result<Vec<u8>, Stop> {
    let alloc = fields.alloc();
    let loader = version(fields.text()?)?;
    let index = fields.small()? as usize;
    let items = items_of(alloc, fields.text()?)?;
    if index >= items.len() {
        return Err(Stop::Unknown);
    }
    Ok(entry_text(alloc, loader, &items, index)?.into_vec())
}

fn placed(fields: &mut Fields) -> Result<Vec<u8>, Stop> {
    let alloc = fields.alloc();
    let index = fields.small()? as usize;
    let items = items_of(alloc, fields.text()?)?;
    if index >= items.len() {
        return Err(Stop::Unknown);
    }
    number(alloc, link_number(&items, index) as u64)
}
