//! Texts and bytes that a caller reads as lists.

ghost use Rattle.std.specs.Prelude.{◌≡◌, ◌&&◌, true, false, MatchOption, IfOk, not};
ghost use Rattle.std.specs.Str.{is_utf8};
ghost use Rattle.gv_core.specs.Text.{no_zero};

use crate::fault::GvNoMemory;
use std::alloc::Global;
use std::marker::Model;

/// UTF-8 without a zero byte.
#[derive(Debug, Drop)]
pub struct GvText {
    bytes: Vec<u8>,
}

impl Model for GvText {
    ghost use Rattle.std.specs.Prelude.{List, ℕ, ◌≡◌, true, ◌&&◌};
    ghost use Rattle.std.specs.Str.{is_utf8};
    ghost use Rattle.gv_core.specs.Text.{no_zero};

    ghost Value = { List ℕ };

    ghost view = { λ a. a.bytes.items };

    ghost invariant = { λ a. (is_utf8 a.bytes.items && no_zero a.bytes.items) ≡ true };
}

impl GvText {
    /// The text that the bytes are; None where they aren't UTF-8 or hold a zero byte.
    pub fn parse(alloc: Global, text: &[u8]) -> Result<Option<GvText>, GvNoMemory>
        ensures { IfOk result (λ o. MatchOption o ((is_utf8 text.now && no_zero text.now) ≡ false) (λ t. (t ≡ text.now) × ((is_utf8 text.now && no_zero text.now) ≡ true))) }
    {
        if !is_text(text) {
            return Ok(None);
        }
        Ok(Some(GvText {
            bytes: Vec::from_slice(alloc, text)?,
        }))
    }

    pub fn as_slice(&self) -> &[u8]
        ensures bytes { result.now ≡ self.now }
        ensures text { (is_utf8 result.now && no_zero result.now) ≡ true }
    {
        &self.bytes
    }
}

fn is_text(text: &[u8]) -> bool
    ensures { result ≡ (is_utf8 text.now && no_zero text.now) }
{
    match std::str::from_utf8(text) {
        Ok(_) => !has_zero(text),
        Err(_) => false,
    }
}

fn has_zero(text: &[u8]) -> bool
    ensures { result ≡ not (no_zero text.now) }
{
    let mut left = text;
    while let [first, rest @ ..] = left {
        if *first == 0 {
            return true;
        }
        left = rest;
    }
    false
}

/// The bytes of a value.
#[derive(Debug, Drop)]
pub struct GvBytes {
    bytes: Vec<u8>,
}

impl Model for GvBytes {
    ghost use Rattle.std.specs.Prelude.{List, ℕ};

    ghost Value = { List ℕ };

    ghost view = { λ a. a.bytes.items };
}

impl GvBytes {
    pub(crate) fn new(bytes: Vec<u8>) -> GvBytes
        ensures { result ≡ bytes.items }
    {
        GvBytes { bytes }
    }

    pub fn as_slice(&self) -> &[u8]
        ensures { result.now ≡ self.now }
    {
        &self.bytes
    }
}
