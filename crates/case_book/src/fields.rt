//! Fields of a line of words.
use crate::book::Range;
use crate::fault::LineFault;
use ost_types::{Bytes, FsPath};
use script::{number_of, read_field, read_path};
use std::alloc::Global;

/// The fields of a line, which have spaces between them.
pub(crate) fn fields_of(alloc: Global, line: &[u8]) -> Result<Vec<&[u8]>, LineFault> {
    let mut fields = Vec::new(alloc);
    for field in line.split(|byte| *byte == b' ') {
        if !field.is_empty() {
            fields.push(field)?;
        }
    }
    Ok(fields)
}

pub(crate) fn number(field: &[u8]) -> Result<u64, LineFault> {
    number_of(field).ok_or(LineFault::Bad)
}

pub(crate) fn numbers(alloc: Global, fields: &[&[u8]]) -> Result<Vec<u64>, LineFault> {
    let mut numbers = Vec::new(alloc);
    for field in fields {
        numbers.push(number(field)?)?;
    }
    Ok(numbers)
}

/// An exit status.
pub(crate) fn status(field: &[u8]) -> Result<u8, LineFault> {
    u8::try_from(number(field)?).map_err(|_| LineFault::Bad)
}

pub(crate) fn path(alloc: Global, field: &[u8]) -> Result<FsPath, LineFault> {
    match read_path(alloc, field)? {
        Some(path) => Ok(path),
        None => Err(LineFault::Bad),
    }
}

pub(crate) fn names(alloc: Global, fields: &[&[u8]]) -> Result<Vec<Bytes>, LineFault> {
    let mut names = Vec::new(alloc);
    for field in fields {
        match read_field(alloc, field)? {
            Some(name) => names.push(name)?,
            None => return Err(LineFault::Bad),
        }
    }
    Ok(names)
}

/// `5`, `5..9` or `5..`.
pub(crate) fn range(field: &[u8]) -> Result<Range, LineFault> {
    let end = field
        .iter()
        .position(|byte| *byte == b'.')
        .unwrap_or(field.len());
    let (digits, rest) = field.split_at(end);
    let first = number(digits)?;
    let last = match rest {
        [] => Some(first),
        [b'.', b'.'] => None,
        [b'.', b'.', digits @ ..] => Some(number(digits)?),
        _ => return Err(LineFault::Bad),
    };
    Ok(Range { first, last })
}

pub(crate) fn ranges(alloc: Global, fields: &[&[u8]]) -> Result<Vec<Range>, LineFault> {
    let mut ranges = Vec::new(alloc);
    for field in fields {
        ranges.push(range(field)?)?;
    }
    Ok(ranges)
}

/// Choices with `;` between them, each of numbers with `,` between them, or `-` for none.
pub(crate) fn choices(alloc: Global, field: &[u8]) -> Result<Vec<Vec<u32>>, LineFault> {
    let mut choices = Vec::new(alloc);
    for choice in field.split(|byte| *byte == b';') {
        choices.push(picks(alloc, choice)?)?;
    }
    Ok(choices)
}

fn picks(alloc: Global, choice: &[u8]) -> Result<Vec<u32>, LineFault> {
    let mut picks = Vec::new(alloc);
    if choice == b"-".as_slice() {
        return Ok(picks);
    }
    for pick in choice.split(|byte| *byte == b',') {
        picks.push(u32::try_from(number(pick)?).map_err(|_| LineFault::Bad)?)?;
    }
    Ok(picks)
}
