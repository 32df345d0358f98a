//! Bytes, texts and names, each made and copied.
use ost_types::{Bytes, Name, Names, Text, TryCopy};
use sheet::{Fields, Stop, number, text};

/// A byte and more bytes behind it.
pub fn bytes_made(fields: &mut Fields) -> Result<Vec<u8>, Stop> {
    let (first, more) = (fields.bytes()?, fields.bytes()?);
    let mut bytes = Bytes::new(fields.alloc());
    for byte in &first {
        bytes.push(*byte)?;
    }
    bytes.append(&more)?;
    let copy = Bytes::from_vec(bytes.copy()?.into_vec());
    if copy != Bytes::from_slice(fields.alloc(), bytes.as_slice())? {
        return text(fields.alloc(), "another copy");
    }
    Ok(copy.into_vec())
}

pub fn text_read(fields: &mut Fields) -> Result<Vec<u8>, Stop> {
    let bytes = fields.bytes()?;
    match Text::parse(fields.alloc(), &bytes)? {
        Some(read) if read.copy()? == read => text(fields.alloc(), read.as_str()),
        Some(_) => text(fields.alloc(), "another copy"),
        None => text(fields.alloc(), "none"),
    }
}

pub fn name_read(fields: &mut Fields) -> Result<Vec<u8>, Stop> {
    let bytes = fields.bytes()?;
    match Name::parse(fields.alloc(), &bytes)? {
        Some(read) => text(fields.alloc(), read.as_str()),
        None => text(fields.alloc(), "none"),
    }
}

/// How many names a list of one has, once it was copied.
pub fn names_made(fields: &mut Fields) -> Result<Vec<u8>, Stop> {
    let bytes = fields.bytes()?;
    let name = Name::parse(fields.alloc(), &bytes)?.ok_or(Stop::Unknown)?;
    let mut names = Names::new(fields.alloc());
    names.push(name)?;
    number(fields.alloc(), names.copy()?.as_slice().len() as u64)
}
