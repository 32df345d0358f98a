//! Numbers and texts as fields.
ghost use Rattle.std.specs.Prelude.{◌≡◌, ◌≢◌, ◌⊎◌, ◌<◌, ◌≤◌, ◌^◌, ℕ, List, true, false, IfOk, IfSome, MatchOption, length, slice_index};
ghost use Rattle.std.specs.Fmt.{decimal};
ghost use Rattle.script.specs.Field.{IsNumber, IsTextField};

use crate::field::read_field;
use ost_types::{NoMemory, Text};
use std::alloc::Global;

/// The number below 2^64 that a field has.
pub fn read_u64(alloc: Global, field: &[u8]) -> Result<Option<u64>, NoMemory>
    ensures { IfOk result (λ o. MatchOption o ((n : ℕ) → ¬ (IsNumber (2 ^ 64) field.now n)) (IsNumber (2 ^ 64) field.now)) }
{
    match read_field(alloc, field)? {
        Some(digits) => Ok(number_of(digits.as_slice())),
        None => Ok(None),
    }
}

/// The number below 2^32 that a field has.
pub fn read_u32(alloc: Global, field: &[u8]) -> Result<Option<u32>, NoMemory>
    ensures { IfOk result (λ o. MatchOption o ((n : ℕ) → ¬ (IsNumber (2 ^ 32) field.now n)) (IsNumber (2 ^ 32) field.now)) }
{
    match read_u64(alloc, field)? {
        Some(number) => Ok(u32::try_from(number).ok()),
        None => Ok(None),
    }
}

/// The number whose decimal digits these are, without leading zeros.
pub fn number_of(digits: &[u8]) -> Option<u64>
    ensures value { MatchOption result ((n : ℕ) → n < 2 ^ 64 → digits.now ≢ decimal n) (λ n. digits.now ≡ decimal n) }
    ensures small { IfSome result (λ n. n < 2 ^ 64) }
{
    if has_other_front(digits) {
        return None;
    }
    match std::str::from_utf8(digits) {
        Ok(text) => text.parse::<u64>().ok(),
        Err(_) => None,
    }
}

/// Whether the text begins with a sign, or with a zero and has more behind it.
fn has_other_front(digits: &[u8]) -> bool
    ensures yes { result ≡ true → (slice_index digits.now 0 ≡ 43) ⊎ ((slice_index digits.now 0 ≡ 48) × (1 < length digits.now)) }
    ensures no { result ≡ false → (slice_index digits.now 0 ≢ 43) × (slice_index digits.now 0 ≡ 48 → length digits.now ≤ 1) }
{
    match digits {
        [first, ..] => *first == b'+' || (*first == b'0' && digits.len() > 1),
        [] => false,
    }
}

/// The text that a field has.
pub fn read_text(alloc: Global, field: &[u8]) -> Result<Option<Text>, NoMemory>
    ensures { IfOk result (λ o. MatchOption o ((text : List ℕ) → ¬ (IsTextField field.now text)) (IsTextField field.now)) }
{
    match read_field(alloc, field)? {
        Some(value) => Text::parse(alloc, value.as_slice()),
        None => Ok(None),
    }
}
