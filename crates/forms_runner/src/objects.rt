//! Calls of `ost_forms` and `ost_objects`.
use crate::faults::{told_check, told_fault};
use crate::forms::read_again;
use crate::many::many_files;
use crate::types::{kind, object_name, sum};
use ost_forms::{
    BodySpec, Commit, ObjFault, TreeItem, read_commit, read_content, read_dirmeta, read_dirtree,
    sum_of, write_commit,
};
use ost_objects::{CheckFault, Checked, MakeFault, check};
use ost_types::{Bytes, FsPath, Kind, Limits, Meta, ObjName, Text, TryCopy, Xattrs};
use sheet::{Bench, Fields, Stop, text};
use std::alloc::Global;

#[derive(Drop)]
pub struct ObjectBench;

impl Bench for ObjectBench {
    fn answer(&mut self, name: &str, fields: Fields) -> Result<Vec<u8>, Stop> {
        let mut fields = fields;
        match name {
            "object" => object(&mut fields),
            "many_files" => many_object(&mut fields),
            "sum_of" => told_sum(&mut fields),
            "commit_of" => commit_of(&mut fields),
            "check" => checked(&mut fields),
            "long" | "is_too_large" => long(name, &mut fields),
            "item" => item_copied(&mut fields),
            "read" => {
                let kind = kind(fields.text()?)?;
                read_again(kind, &Limits::standard(), &mut fields)
            }
            "file_of_six_bytes" => read_again(Kind::File, &six_bytes(), &mut fields),
            _ => Err(Stop::Unknown),
        }
    }
}

fn six_bytes() -> Limits {
    Limits {
        objects: 9,
        paths: 9,
        content: 6,
    }
}

/// Why nothing was made again.
enum Lost {
    Read(ObjFault),
    Made(MakeFault),
}

impl From<ObjFault> for Lost {
    fn from(fault: ObjFault) -> Lost {
        Lost::Read(fault)
    }
}

impl From<MakeFault> for Lost {
    fn from(fault: MakeFault) -> Lost {
        Lost::Made(fault)
    }
}

// The object that writing makes of what reading finds.
fn made_again(alloc: Global, kind: Kind, bytes: &[u8]) -> Result<Checked, Lost> {
    let limits = Limits::standard();
    Ok(match kind {
        Kind::Commit => Checked::of_commit(alloc, &read_commit(alloc, bytes)?, &limits)?,
        Kind::DirTree => Checked::of_dirtree(alloc, &read_dirtree(alloc, bytes)?, &limits)?,
        Kind::DirMeta => Checked::of_dirmeta(alloc, &read_dirmeta(alloc, bytes)?, &limits)?,
        Kind::File => Checked::of_content(alloc, &read_content(alloc, bytes, &limits)?, &limits)?,
    })
}

// These bytes have the name, and are what is written of them.
fn judged(alloc: Global, name: ObjName, bytes: &[u8]) -> Result<&'static str, Stop> {
    let again = match made_again(alloc, name.kind, bytes) {
        Ok(again) => again,
        Err(Lost::Read(_)) => return Ok("isn't read"),
        Err(Lost::Made(_)) => return Ok("isn't made"),
    };
    if *again.name() != name {
        return Ok("another name");
    }
    let bytes = Bytes::from_slice(alloc, bytes)?;
    let checked = check(alloc, name, bytes, &Limits::standard());
    Ok(match &checked {
        Ok(checked) if checked.bytes() == again.bytes() => "ok",
        Ok(_) => "other bytes",
        Err(_) => "isn't whole",
    })
}

fn object(fields: &mut Fields) -> Result<Vec<u8>, Stop> {
    let name = object_name(fields)?;
    let bytes = fields.bytes()?;
    text(fields.alloc(), judged(fields.alloc(), name, &bytes)?)
}

// The letters of the last name, the sum of the entries, how many bytes they are to have, and the name of the folder.
fn many_object(fields: &mut Fields) -> Result<Vec<u8>, Stop> {
    let alloc = fields.alloc();
    let letters = fields.small()?;
    let entries = sum(fields)?;
    let size = fields.number()?;
    let csum = sum(fields)?;
    let bytes = many_files(alloc, letters, entries.as_slice())?;
    if bytes.len() as u64 != size {
        return text(alloc, "another size");
    }
    let kind = Kind::DirTree;
    text(alloc, judged(alloc, ObjName { csum, kind }, &bytes)?)
}

fn told_sum(fields: &mut Fields) -> Result<Vec<u8>, Stop> {
    let sum = sum_of(&fields.bytes()?);
    Ok(Vec::from_slice(fields.alloc(), sum.to_hex().as_slice())?)
}

// The bytes of a commit with no parent: subject, body, time, entries and attributes.
fn commit_of(fields: &mut Fields) -> Result<Vec<u8>, Stop> {
    let alloc = fields.alloc();
    let subject = text_field(fields)?;
    let body = text_field(fields)?;
    let time = fields.number()?;
    let (tree, meta) = (sum(fields)?, sum(fields)?);
    let commit = Commit::new(alloc, None, subject, body, time, tree, meta)?;
    Ok(write_commit(alloc, &commit)?.into_vec())
}

fn text_field(fields: &mut Fields) -> Result<Text, Stop> {
    let bytes = fields.bytes()?;
    Text::parse(fields.alloc(), &bytes)?.ok_or(Stop::Unknown)
}

fn fault_of(alloc: Global, name: ObjName, bytes: Vec<u8>) -> Option<CheckFault> {
    let checked = check(alloc, name, Bytes::from_vec(bytes), &Limits::standard());
    checked.err().map(|back| back.1)
}

fn checked(fields: &mut Fields) -> Result<Vec<u8>, Stop> {
    let alloc = fields.alloc();
    let name = object_name(fields)?;
    match fault_of(alloc, name, fields.bytes()?) {
        None => text(alloc, "ok"),
        Some(fault) => told_check(alloc, fault),
    }
}

// What the check finds wrong with these bytes and zeros behind them, so many in all.
fn long(question: &str, fields: &mut Fields) -> Result<Vec<u8>, Stop> {
    let alloc = fields.alloc();
    let kind = kind(fields.text()?)?;
    let mut bytes = fields.bytes()?;
    bytes.resize(fields.small()? as usize, 0)?;
    let csum = sum_of(&bytes);
    match fault_of(alloc, ObjName { csum, kind }, bytes) {
        Some(CheckFault::Unreadable(fault)) => told_long(alloc, question, fault),
        Some(fault) => told_check(alloc, fault),
        None => text(alloc, "ok"),
    }
}

fn told_long(alloc: Global, question: &str, fault: ObjFault) -> Result<Vec<u8>, Stop> {
    match fault {
        ObjFault::TooLarge(_) => told_fault(alloc, fault),
        _ if question == "is_too_large" => text(alloc, "no"),
        other => told_fault(alloc, other),
    }
}

// The group and the bytes of a copy of an item.
fn item_copied(fields: &mut Fields) -> Result<Vec<u8>, Stop> {
    let item = item(fields)?;
    told_item(fields.alloc(), &item.copy()?)
}

// A file of an owner and a group, and its bytes.
fn item(fields: &mut Fields) -> Result<TreeItem, Stop> {
    let alloc = fields.alloc();
    let (uid, gid) = (fields.small()?, fields.small()?);
    let bytes = Bytes::from_vec(fields.bytes()?);
    Ok(TreeItem {
        path: FsPath::root(alloc),
        meta: Meta {
            uid,
            gid,
            mode: 0o100644,
            xattrs: Xattrs::new(alloc),
        },
        body: Some(BodySpec::Given(bytes)),
    })
}

fn told_item(alloc: Global, item: &TreeItem) -> Result<Vec<u8>, Stop> {
    let mut told = text(alloc, format!(in alloc; "{} ", item.meta.gid)?.as_str())?;
    if let Some(BodySpec::Given(bytes)) = &item.body {
        told.extend_from_slice(bytes.as_slice())?;
    }
    Ok(told)
}
