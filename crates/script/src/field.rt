//! What a field stands for.
ghost use Rattle.std.specs.Prelude.{◌≡◌, ◌≢◌, ◌<◌, ◌∷◌, ◌++◌, [], ℕ, List, length, IfOk, OnOk, IfSome, IsNone, MatchOption};
ghost use Rattle.ost_types.specs.Csum.{hex_of};
ghost use Rattle.script.specs.Field.{IsField, IsNoField, Spells, NotSpelled, Stands};

use crate::escape::{escape, is_plain};
use hex::FromHex;
use ost_types::{Bytes, NoMemory};
use std::alloc::Global;

/// The bytes that a field stands for, or None where it is no field: `~` alone stands for none, and `%` with two digits
/// of `0-9a-f` for the byte of these digits.
pub fn read_field(alloc: Global, field: &[u8]) -> Result<Option<Bytes>, NoMemory>
    ensures { IfOk result (λ v. MatchOption v (IsNoField field.now) (IsField field.now)) }
{
    if field == [b'~'].as_slice() {
        return Ok(Some(Bytes::new(alloc)));
    }
    if field.is_empty() {
        return Ok(None);
    }
    unescape(alloc, field)
}

/// The bytes that the text stands for; it may be empty.
pub fn unescape(alloc: Global, text: &[u8]) -> Result<Option<Bytes>, NoMemory>
    ensures { IfOk result (λ v. MatchOption v (NotSpelled text.now) (Spells text.now)) }
{
    let mut value = Bytes::new(alloc);
    let mut rest = text;
    while let Some((byte, behind)) = split_byte(rest) {
        push_byte(&mut value, byte)?;
        rest = behind;
    }
    if rest.is_empty() {
        Ok(Some(value))
    } else {
        Ok(None)
    }
}

fn push_byte(value: &mut Bytes, byte: u8) -> Result<(), NoMemory>
    ensures ok { OnOk result (value.new ≡ value.old ++ byte ∷ []) }
    ensures small { byte < 256 }
{
    value.push(byte)
}

/// The first byte that the text stands for, and the text behind it.
fn split_byte(text: &[u8]) -> Option<(u8, &[u8])>
    ensures some { IfSome result (λ p. Stands text.now p.0 p.1.now) }
    ensures shorter { IfSome result (λ p. length p.1.now < length text.now) }
    ensures none { IsNone result → (b : ℕ) (rest : List ℕ) → b < 256 → ¬ (Stands text.now b rest) }
{
    let [first, rest @ ..] = text else {
        return None;
    };
    if *first == b'%' {
        return split_digits(rest);
    }
    if is_plain(*first) {
        Some((*first, rest))
    } else {
        None
    }
}

/// The byte whose two digits the text begins with, and the text behind them.
fn split_digits(text: &[u8]) -> Option<(u8, &[u8])>
    ensures some { IfSome result (λ p. text.now ≡ hex_of (p.0 ∷ []) ++ p.1.now) }
    ensures shorter { IfSome result (λ p. length p.1.now < length text.now) }
    ensures none { IsNone result → (b : ℕ) (rest : List ℕ) → b < 256 → text.now ≢ hex_of (b ∷ []) ++ rest }
{
    if text.len() < 2 {
        return None;
    }
    let (digits, rest) = text.split_at(2);
    match byte_of(digits) {
        Some(byte) => Some((byte, rest)),
        None => None,
    }
}

/// The byte whose two digits these are.
pub fn byte_of(digits: &[u8]) -> Option<u8>
    ensures some { IfSome result (λ b. digits.now ≡ hex_of (b ∷ [])) }
    ensures none { IsNone result → (b : ℕ) → b < 256 → digits.now ≢ hex_of (b ∷ []) }
{
    match <[u8; 1] as FromHex>::from_hex(digits) {
        Ok(bytes) => written_so(bytes[0], digits),
        Err(_) => None,
    }
}

/// The byte, if its digits are written so: not with capital letters.
fn written_so(byte: u8, digits: &[u8]) -> Option<u8>
    ensures some { IfSome result (λ b. (b ≡ byte) × (digits.now ≡ hex_of (byte ∷ []))) }
    ensures none { IsNone result → digits.now ≢ hex_of (byte ∷ []) }
{
    let code = escape(byte);
    if &code[1..] == digits {
        Some(byte)
    } else {
        None
    }
}
