//! Answers as text.
use crate::stop::Stop;
use std::alloc::Global;

/// An answer that is a word.
pub fn text(alloc: Global, word: &str) -> Result<Vec<u8>, Stop> {
    Ok(Vec::from_slice(alloc, word.as_bytes())?)
}

pub fn number(alloc: Global, number: u64) -> Result<Vec<u8>, Stop> {
    text(alloc, format!(in alloc; "{number}")?.as_str())
}

pub fn yes_or_no(alloc: Global, is_so: bool) -> Result<Vec<u8>, Stop> {
    text(alloc, if is_so { "yes" } else { "no" })
}
