//! A line of a key and its value.
ghost use Rattle.std.specs.Prelude.{◌≡◌, ◌≢◌, ◌++◌, ◌↔◌, List, ℕ, IsTrue, MatchOption};
ghost use Rattle.bls_entry.specs.Line.{BeginsSetting, IsOneLine, IsSetting, IsValue};

use crate::blank::{is_blank, split_at_blank, split_blanks};

/// The key and the value of a line, or None where it isn't a key, blanks and a value.
pub fn read_setting(line: &[u8]) -> Option<(&[u8], &[u8])>
    requires one { IsOneLine line.now }
    requires begins { BeginsSetting line.now }
    ensures { MatchOption result ((key blanks value : List ℕ) → IsSetting key blanks value → line.now ≢ key ++ (blanks ++ value)) (λ p. (blanks : List ℕ) × IsSetting p.0.now blanks p.1.now × (line.now ≡ p.0.now ++ (blanks ++ p.1.now))) }
{
    let (key, behind) = split_at_blank(line);
    let (_, value) = split_blanks(behind);
    if key.is_empty() || value.is_empty() {
        return None;
    }
    Some((key, value))
}

/// Whether this may stand behind a key and blanks.
pub fn is_value(value: &[u8]) -> bool
    ensures { IsTrue result ↔ IsValue value.now }
{
    match value {
        [first, ..] => !is_blank(*first) && !value.contains(&b'\n'),
        [] => false,
    }
}
