//! Objects that are read, and written again.
use crate::faults::told_fault;
use ost_forms::{
    ObjFault, read_commit, read_content, read_dirmeta, read_dirtree, write_commit, write_content,
    write_dirmeta, write_dirtree,
};
use ost_types::{Bytes, Kind, Limits};
use sheet::{Fields, Stop, text};
use std::alloc::Global;

/// Whether the bytes are read as an object of this kind, and that is written as they are.
pub fn read_again(kind: Kind, limits: &Limits, fields: &mut Fields) -> Result<Vec<u8>, Stop> {
    let alloc = fields.alloc();
    let bytes = fields.bytes()?;
    match written(alloc, kind, &bytes, limits) {
        Ok(again) if again.as_slice() == bytes.as_slice() => text(alloc, "ok"),
        Ok(_) => text(alloc, "other bytes"),
        Err(fault) => told_fault(alloc, fault),
    }
}

fn written(alloc: Global, kind: Kind, bytes: &[u8], limits: &Limits) -> Result<Bytes, ObjFault> {
    match kind {
        Kind::Commit => Ok(write_commit(alloc, &read_commit(alloc, bytes)?)?),
        Kind::DirTree => Ok(write_dirtree(alloc, &read_dirtree(alloc, bytes)?)?),
        Kind::DirMeta => Ok(write_dirmeta(alloc, &read_dirmeta(alloc, bytes)?)?),
        Kind::File => Ok(write_content(alloc, &read_content(alloc, bytes, limits)?)?),
    }
}
