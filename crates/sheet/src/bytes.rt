//! Bytes as text.
use crate::stop::Stop;
use std::alloc::Global;

/// The bytes that a text stands for: its own, but `%hh` is the byte of two hexadecimal digits, `%{hhhh}` the bytes of so many,
/// and `%{COUNT:hhhh}` these bytes so often.
pub fn bytes_of(alloc: Global, text: &str) -> Result<Vec<u8>, Stop> {
    let mut bytes = Vec::new(alloc);
    let mut is_plain = true;
    for piece in text.split('%') {
        if is_plain {
            bytes.extend_from_slice(piece.as_bytes())?;
        } else {
            add_piece(alloc, &mut bytes, piece)?;
        }
        is_plain = false;
    }
    Ok(bytes)
}

// What stands behind a `%`.
fn add_piece(alloc: Global, bytes: &mut Vec<u8>, piece: &str) -> Result<(), Stop> {
    let rest = match piece.strip_prefix('{') {
        Some(group) => {
            let (inside, rest) = group.split_once('}').ok_or(Stop::Unknown)?;
            add_group(alloc, bytes, inside)?;
            rest
        }
        None => {
            let (digits, rest) = piece.split_at_checked(2).ok_or(Stop::Unknown)?;
            add_repeated(alloc, bytes, digits, 1)?;
            rest
        }
    };
    bytes.extend_from_slice(rest.as_bytes())?;
    Ok(())
}

fn add_group(alloc: Global, bytes: &mut Vec<u8>, inside: &str) -> Result<(), Stop> {
    match inside.split_once(':') {
        Some((count, digits)) => {
            let count = count.parse::<u32>().map_err(|_| Stop::Unknown)?;
            add_repeated(alloc, bytes, digits, count)
        }
        None => add_repeated(alloc, bytes, inside, 1),
    }
}

fn add_repeated(alloc: Global, bytes: &mut Vec<u8>, digits: &str, count: u32) -> Result<(), Stop> {
    let piece = hex::decode(alloc, digits).map_err(|_| Stop::Unknown)?;
    for _ in 0..count {
        bytes.extend_from_slice(&piece)?;
    }
    Ok(())
}

/// A text that stands for the bytes.
pub(crate) fn add_shown(alloc: Global, text: &mut Vec<u8>, bytes: &[u8]) -> Result<(), Stop> {
    for byte in bytes {
        match *byte {
            b'%' | 0..=31 | 127..=255 => {
                let shown = format!(in alloc; "%{byte:02x}")?;
                text.extend_from_slice(shown.as_bytes())?;
            }
            other => text.push(other)?,
        }
    }
    Ok(())
}
