//! Calls of `keyfile` and `repo_config`.
use keyfile::{KeyFault, KeyLine, read_keyfile, write_keyfile};
use repo_config::{config_text, is_config};
use sheet::{Bench, Fields, Stop, text, yes_or_no};
use std::alloc::Global;

#[derive(Drop)]
pub struct ConfigBench;

impl Bench for ConfigBench {
    fn answer(&mut self, name: &str, fields: Fields) -> Result<Vec<u8>, Stop> {
        let mut fields = fields;
        match name {
            "keyfile" | "entries" | "written" => read(name, &mut fields),
            "many_keys" => many_keys(&mut fields),
            "is_config" => {
                let bytes = fields.bytes()?;
                yes_or_no(fields.alloc(), is_config(fields.alloc(), &bytes)?)
            }
            "new_config" => yes_or_no(fields.alloc(), is_config(fields.alloc(), config_text())?),
            _ => Err(Stop::Unknown),
        }
    }
}

fn read(name: &str, fields: &mut Fields) -> Result<Vec<u8>, Stop> {
    let alloc = fields.alloc();
    let bytes = fields.bytes()?;
    match read_keyfile(alloc, &bytes) {
        Err(fault) => told_fault(alloc, fault),
        Ok(_) if name == "keyfile" => text(alloc, "ok"),
        Ok(entries) if name == "entries" => told_entries(alloc, &entries),
        Ok(entries) => Ok(write_keyfile(alloc, &entries)?.into_vec()),
    }
}

fn told_fault(alloc: Global, fault: KeyFault) -> Result<Vec<u8>, Stop> {
    let (word, line) = match fault {
        KeyFault::NoGroup(line) => ("no_group", line),
        KeyFault::BadLine(line) => ("bad_line", line),
        KeyFault::Repeated(line) => ("repeated", line),
        KeyFault::NoMemory => return Err(Stop::NoMemory),
    };
    text(alloc, format!(in alloc; "{word} {line}")?.as_str())
}

// Each as its group, key and value, with a line feed behind each.
fn told_entries(alloc: Global, entries: &[KeyLine]) -> Result<Vec<u8>, Stop> {
    let mut told = Vec::new(alloc);
    for entry in entries {
        for part in [&entry.group, &entry.key, &entry.value] {
            told.extend_from_slice(part.as_str().as_bytes())?;
            told.push(b'\n')?;
        }
    }
    Ok(told)
}

// How many entries are read of a group of so many keys, and the text behind it.
fn many_keys(fields: &mut Fields) -> Result<Vec<u8>, Stop> {
    let alloc = fields.alloc();
    let count = fields.small()?;
    let mut bytes = text(alloc, "[a]\n")?;
    for key in 0..count {
        bytes.extend_from_slice(format!(in alloc; "{key}=x\n")?.as_bytes())?;
    }
    bytes.extend_from_slice(&fields.bytes()?)?;
    match read_keyfile(alloc, &bytes) {
        Ok(entries) => text(alloc, format!(in alloc; "{}", entries.len())?.as_str()),
        Err(fault) => told_fault(alloc, fault),
    }
}
