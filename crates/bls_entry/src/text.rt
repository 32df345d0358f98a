//! Texts of slices.
ghost use Rattle.std.specs.Prelude.{◌≡◌, IfOk, MatchOption};
ghost use Rattle.ost_types.specs.Text.{IsText};

use ost_types::{NoMemory, Text};
use std::alloc::Global;

/// The bytes as a text, or None where they are none.
pub fn as_text(bytes: &[u8]) -> Option<&str>
    ensures { MatchOption result (¬ (IsText bytes.now)) (λ text. IsText bytes.now × (text.now ≡ bytes.now)) }
{
    if bytes.contains(&0) {
        return None;
    }
    std::str::from_utf8(bytes).ok()
}

pub fn text_from(alloc: Global, text: &str) -> Result<Text, NoMemory>
    requires { IsText text.now }
    ensures { IfOk result (λ t. t ≡ text.now) }
{
    match Text::parse(alloc, text.as_bytes())? {
        Some(text) => Ok(text),
        None => unreachable!(),
    }
}
