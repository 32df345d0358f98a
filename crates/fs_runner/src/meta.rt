//! Owners, modes and extended attributes as fields.
use ost_types::{Bytes, FsPath, Meta, Text, Xattr, Xattrs};
use sheet::{Fields, Stop, bytes_of};
use std::alloc::Global;

/// The path of the next field.
pub fn path(fields: &mut Fields) -> Result<FsPath, Stop> {
    let text = fields.bytes()?;
    FsPath::parse(fields.alloc(), &text).map_err(|_| Stop::Unknown)
}

/// The target of a link: the next field, or `target`.
pub fn target(fields: &mut Fields) -> Result<Text, Stop> {
    let text = given_or(fields, b"target")?;
    Text::parse(fields.alloc(), &text)?.ok_or(Stop::Unknown)
}

/// What is to be appended: the next field, or `x`.
pub fn content(fields: &mut Fields) -> Result<Vec<u8>, Stop> {
    given_or(fields, b"x")
}

fn given_or(fields: &mut Fields, other: &[u8]) -> Result<Vec<u8>, Stop> {
    if fields.has_more() {
        fields.bytes()
    } else {
        Ok(Vec::from_slice(fields.alloc(), other)?)
    }
}

/// Who owns what is made without an owner of its own.
#[derive(Clone, Copy)]
pub struct Owner {
    pub uid: u32,
    pub gid: u32,
}

impl Owner {
    pub const ROOT: Owner = Owner { uid: 0, gid: 0 };
}

/// Owner, group, mode in octal digits, and extended attributes `NAME=VALUE`; where there are none, this owner and this mode.
pub fn meta(fields: &mut Fields, owner: Owner, mode: u32) -> Result<Meta, Stop> {
    if fields.has_more() {
        return given_meta(fields, owner);
    }
    Ok(Meta {
        uid: owner.uid,
        gid: owner.gid,
        mode,
        xattrs: Xattrs::new(fields.alloc()),
    })
}

fn given_meta(fields: &mut Fields, owner: Owner) -> Result<Meta, Stop> {
    let uid = number_or(fields, owner.uid)?;
    let gid = number_or(fields, owner.gid)?;
    let mode = octal(fields)?;
    let xattrs = xattrs(fields)?;
    Ok(Meta {
        uid,
        gid,
        mode,
        xattrs,
    })
}

// `-` stands for the one that is given.
fn number_or(fields: &mut Fields, given: u32) -> Result<u32, Stop> {
    match fields.text()? {
        "-" => Ok(given),
        field => field.parse::<u32>().map_err(|_| Stop::Unknown),
    }
}

fn octal(fields: &mut Fields) -> Result<u32, Stop> {
    u32::from_str_radix(fields.text()?, 8).map_err(|_| Stop::Unknown)
}

// All fields that are left.
fn xattrs(fields: &mut Fields) -> Result<Xattrs, Stop> {
    match fields.others() {
        Some(words) => xattrs_of(fields.alloc(), words),
        None => Ok(Xattrs::new(fields.alloc())),
    }
}

fn xattrs_of(alloc: Global, words: &str) -> Result<Xattrs, Stop> {
    let mut xattrs = Xattrs::new(alloc);
    for word in words.split(' ') {
        xattrs.push(xattr(alloc, word)?)?;
    }
    Ok(xattrs)
}

fn xattr(alloc: Global, word: &str) -> Result<Xattr, Stop> {
    let (name, value) = word.split_once('=').ok_or(Stop::Unknown)?;
    let name = Bytes::from_vec(bytes_of(alloc, name)?);
    let value = Bytes::from_vec(bytes_of(alloc, value)?);
    Ok(Xattr { name, value })
}

/// The fields as they are told: owner, group, mode, and extended attributes.
pub fn add_meta(alloc: Global, text: &mut Vec<u8>, meta: &Meta) -> Result<(), Stop> {
    let front = format!(in alloc; "{} {} {:o}", meta.uid, meta.gid, meta.mode)?;
    add_word(text, front.as_bytes())?;
    for xattr in meta.xattrs.as_slice() {
        add_xattr(text, xattr)?;
    }
    Ok(())
}

fn add_xattr(text: &mut Vec<u8>, xattr: &Xattr) -> Result<(), Stop> {
    add_word(text, xattr.name.as_slice())?;
    text.push(b'=')?;
    text.extend_from_slice(xattr.value.as_slice())?;
    Ok(())
}

/// These bytes behind a space.
pub fn add_word(text: &mut Vec<u8>, word: &[u8]) -> Result<(), Stop> {
    text.push(b' ')?;
    text.extend_from_slice(word)?;
    Ok(())
}
