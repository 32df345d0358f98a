ghost use Rattle.std.specs.Prelude.{◌≡◌, ◌≢◌, ◌⊎◌, ◌<◌, ◌≤◌, ◌^◌, ◌↔◌, ℕ, IsTrue, true, false, IfSome, MatchOption, length, slice_index};
ghost use Rattle.std.specs.Fmt.{decimal};

/// The number within these bounds whose decimal digits these are, without zeros in front.
pub fn number_within(digits: &[u8], least: u64, most: u64) -> Option<u64>
    ensures { MatchOption result ((n : ℕ) → least ≤ n → n ≤ most → digits.now ≢ decimal n) (λ n. (digits.now ≡ decimal n) × (least ≤ n) × (n ≤ most)) }
{
    let number = number_of(digits)?;
    if is_within(number, least, most) {
        Some(number)
    } else {
        None
    }
}

fn is_within(number: u64, least: u64, most: u64) -> bool
    ensures { IsTrue result ↔ ((least ≤ number) × (number ≤ most)) }
{
    least <= number && number <= most
}

// the number whose decimal digits these are
fn number_of(digits: &[u8]) -> Option<u64>
    ensures value { MatchOption result ((n : ℕ) → n < 2 ^ 64 → digits.now ≢ decimal n) (λ n. digits.now ≡ decimal n) }
    ensures small { IfSome result (λ n. n < 2 ^ 64) }
{
    if has_other_front(digits) {
        return None;
    }
    match std::str::from_utf8(digits) {
        Ok(text) => text.parse::<u64>().ok(),
        Err(_) => None,
    }
}

/// Whether the text begins with a sign, or with a zero and has more behind it.
fn has_other_front(digits: &[u8]) -> bool
    ensures yes { result ≡ true → (slice_index digits.now 0 ≡ 43) ⊎ ((slice_index digits.now 0 ≡ 48) × (1 < length digits.now)) }
    ensures no { result ≡ false → (slice_index digits.now 0 ≢ 43) × (slice_index digits.now 0 ≡ 48 → length digits.now ≤ 1) }
{
    match digits {
        [first, ..] => *first == b'+' || (*first == b'0' && digits.len() > 1),
        [] => false,
    }
}
