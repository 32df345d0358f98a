//! Strings as GVariant writes them: UTF-8 without zero, and a zero behind it.

ghost use Rattle.std.specs.Prelude.{◌≡◌, ◌↔◌, Some, IfOk, IsTrue, MatchOption};
ghost use Rattle.gv_core.specs.Layout.{text_bytes};
ghost use Rattle.ost_types.specs.Text.{IsText};
ghost use Rattle.ost_forms.specs.Finds.{Finds, HasNone};

use crate::fault::ObjFault;
use ost_types::{NoMemory, Text};
use std::alloc::Global;

/// The text of which these are the bytes.
pub(crate) fn text_of(bytes: &[u8]) -> Option<&[u8]>
    ensures { MatchOption result (HasNone text_bytes bytes.now) (λ t. IsText t.now × (text_bytes t.now ≡ Some bytes.now)) }
{
    let (last, text) = bytes.split_last()?;
    if *last == 0 && is_text(text) {
        Some(text)
    } else {
        None
    }
}

/// The same text, in memory of its own.
pub(crate) fn read_text(alloc: Global, bytes: &[u8]) -> Result<Text, ObjFault>
    ensures { Finds (λ t. t) text_bytes bytes.now result }
{
    let Some(text) = text_of(bytes) else {
        return Err(ObjFault::NotNormal);
    };
    match Text::parse(alloc, text)? {
        Some(text) => Ok(text),
        None => unreachable!(),
    }
}

fn is_text(text: &[u8]) -> bool
    ensures { IsTrue result ↔ IsText text.now }
{
    std::str::from_utf8(text).is_ok() && !text.contains(&0)
}

/// The bytes of a text.
pub(crate) fn bytes_of(alloc: Global, text: &[u8]) -> Result<Vec<u8>, NoMemory>
    requires { IsText text.now }
    ensures { IfOk result (λ b. text_bytes text.now ≡ Some b.items) }
{
    let mut bytes = Vec::with_capacity(alloc, text.len().saturating_add(1))?;
    bytes.extend_from_slice(text)?;
    bytes.push(0)?;
    Ok(bytes)
}
