ghost use Rattle.std.specs.Prelude.{◌≡◌, ◌≢◌, ◌<◌, ◌≤◌, true, false, IfOk, IfSome, length, slice_index};
ghost use Rattle.script.specs.Field.{Gives};
ghost use Rattle.script_reader.specs.Values.{IsMode, IsOctal};

use ost_types::NoMemory;
use script::read_field;
use std::alloc::Global;

/// The permissions that a field has, in octal digits.
pub fn read_mode(alloc: Global, field: &[u8]) -> Result<Option<u32>, NoMemory>
    ensures value { IfOk result (Gives (IsMode field.now)) }
    ensures small { IfOk result (λ o. IfSome o (λ bits. bits < 4096)) }
{
    match read_field(alloc, field)? {
        Some(digits) => Ok(octal_of(digits.as_slice())),
        None => Ok(None),
    }
}

fn octal_of(digits: &[u8]) -> Option<u32>
    ensures value { Gives (IsOctal digits.now) result }
    ensures small { IfSome result (λ bits. bits < 4096) }
{
    if has_front(digits) {
        value_of(digits)
    } else {
        None
    }
}

fn value_of(digits: &[u8]) -> Option<u32>
    requires { (0 < length digits.now) × (length digits.now ≤ 4) × (slice_index digits.now 0 ≢ 43) × (slice_index digits.now 0 ≡ 48 → length digits.now ≡ 1) }
    ensures value { Gives (IsOctal digits.now) result }
    ensures small { IfSome result (λ bits. bits < 4096) }
{
    match std::str::from_utf8(digits) {
        Ok(text) => u32::from_str_radix(text, 8).ok(),
        Err(_) => None,
    }
}

/// Whether the text has 1 to 4 bytes, and neither a sign nor a zero in front of others.
fn has_front(digits: &[u8]) -> bool
    ensures yes { result ≡ true → (0 < length digits.now) × (length digits.now ≤ 4) × (slice_index digits.now 0 ≢ 43) × (slice_index digits.now 0 ≡ 48 → length digits.now ≡ 1) }
    ensures no { result ≡ false → ((0 < length digits.now) × (length digits.now ≤ 4) × (slice_index digits.now 0 ≢ 43) × (slice_index digits.now 0 ≡ 48 → length digits.now ≡ 1)) → ⊥ }
{
    match digits {
        [first, ..] => {
            digits.len() <= 4 && *first != b'+' && (*first != b'0' || digits.len() == 1)
        }
        [] => false,
    }
}
