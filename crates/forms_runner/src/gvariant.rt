//! Calls of `gv_core`.
use crate::show::show;
use gv_core::{GvFault, GvKind, Value, cut, decode, encode, fits, join, parse_kind};
use sheet::{Bench, Fields, Stop, text};
use std::alloc::Global;

#[derive(Drop)]
pub struct GvariantBench;

impl Bench for GvariantBench {
    fn answer(&mut self, name: &str, fields: Fields) -> Result<Vec<u8>, Stop> {
        let mut fields = fields;
        let type_text = fields.bytes()?;
        let kind = match parse_kind(fields.alloc(), &type_text) {
            Ok(kind) => kind,
            Err(fault) => return text(fields.alloc(), fault_word(fault)),
        };
        match name {
            "type" => text(fields.alloc(), "ok"),
            "value" | "reads" => decoded(&kind, name, &mut fields),
            "cut" => cut_and_joined(&kind, &mut fields),
            "join" => joined(&kind, &mut fields),
            _ => Err(Stop::Unknown),
        }
    }
}

fn fault_word(fault: GvFault) -> &'static str {
    match fault {
        GvFault::BadKind => "bad_kind",
        GvFault::TooDeep => "too_deep",
        GvFault::NotNormal => "not_normal",
        GvFault::NoMemory => "no_memory",
    }
}

// What the bytes are read as, where that is written as they are: the value, or `ok`.
fn decoded(kind: &GvKind, name: &str, fields: &mut Fields) -> Result<Vec<u8>, Stop> {
    let alloc = fields.alloc();
    let bytes = fields.bytes()?;
    match decode(alloc, kind, &bytes) {
        Err(fault) => text(alloc, fault_word(fault)),
        Ok(value) if !is_written(alloc, kind, &value, &bytes)? => text(alloc, "other bytes"),
        Ok(_) if name == "reads" => text(alloc, "ok"),
        Ok(value) => shown(alloc, &value),
    }
}

fn is_written(alloc: Global, kind: &GvKind, value: &Value, bytes: &[u8]) -> Result<bool, Stop> {
    if !fits(kind, value) {
        return Ok(false);
    }
    match encode(alloc, kind, value) {
        Ok(written) => Ok(written.as_slice() == bytes),
        Err(_) => Err(Stop::NoMemory),
    }
}

fn shown(alloc: Global, value: &Value) -> Result<Vec<u8>, Stop> {
    let mut out = String::new(alloc);
    show(alloc, &mut out, value)?;
    Ok(out.into_bytes())
}

// The lengths of the members, where the members are joined to the same bytes.
fn cut_and_joined(kind: &GvKind, fields: &mut Fields) -> Result<Vec<u8>, Stop> {
    let alloc = fields.alloc();
    let bytes = fields.bytes()?;
    match cut(alloc, kind, &bytes) {
        Err(fault) => text(alloc, fault_word(fault)),
        Ok(members) if !is_joined(alloc, kind, &members, &bytes)? => text(alloc, "other bytes"),
        Ok(members) => lengths(alloc, &members),
    }
}

fn is_joined(alloc: Global, kind: &GvKind, members: &[&[u8]], bytes: &[u8]) -> Result<bool, Stop> {
    match join(alloc, kind, members) {
        Ok(Some(joined)) => Ok(joined.as_slice() == bytes),
        Ok(None) => Ok(false),
        Err(_) => Err(Stop::NoMemory),
    }
}

fn lengths(alloc: Global, members: &[&[u8]]) -> Result<Vec<u8>, Stop> {
    let mut told = text(alloc, "lengths")?;
    for member in members {
        let length = format!(in alloc; " {}", member.len())?;
        told.extend_from_slice(length.as_bytes())?;
    }
    Ok(told)
}

// Two members joined.
fn joined(kind: &GvKind, fields: &mut Fields) -> Result<Vec<u8>, Stop> {
    let (one, other) = (fields.bytes()?, fields.bytes()?);
    let members: [&[u8]; 2] = [&one, &other];
    match join(fields.alloc(), kind, &members) {
        Ok(Some(joined)) => Ok(Vec::from_slice(fields.alloc(), joined.as_slice())?),
        Ok(None) => text(fields.alloc(), "none"),
        Err(_) => Err(Stop::NoMemory),
    }
}
