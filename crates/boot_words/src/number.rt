//! Numbers below 2^32 in decimal digits, without leading zeros.
ghost use Rattle.std.specs.Prelude.{◌≡◌, ◌≢◌, ◌⊎◌, ◌<◌, ◌≤◌, true, false, MatchOption, length, slice_index};
ghost use Rattle.boot_words.specs.Parts.{IsNoNumber, IsNumber};

/// The number whose digits these are.
pub(crate) fn read_number(digits: &[u8]) -> Option<u32>
    ensures { MatchOption result (IsNoNumber digits.now) (IsNumber digits.now) }
{
    if has_other_front(digits) {
        return None;
    }
    match std::str::from_utf8(digits) {
        Ok(text) => text.parse::<u32>().ok(),
        Err(_) => None,
    }
}

// whether it begins with a sign, or with a zero that has more behind it
fn has_other_front(digits: &[u8]) -> bool
    ensures yes { result ≡ true → (slice_index digits.now 0 ≡ 43) ⊎ ((slice_index digits.now 0 ≡ 48) × (1 < length digits.now)) }
    ensures no { result ≡ false → (slice_index digits.now 0 ≢ 43) × (slice_index digits.now 0 ≡ 48 → length digits.now ≤ 1) }
{
    match digits {
        [first, ..] => *first == b'+' || (*first == b'0' && digits.len() > 1),
        [] => false,
    }
}
