ghost use Rattle.std.specs.Prelude.{◌≡◌, ◌≢◌, ◌<◌, ◌∷◌, ◌++◌, [], ℕ, List, IfOk, IfSome, IsNone, MatchOption, length};
ghost use Rattle.ost_types.specs.Csum.{hex_of};
ghost use Rattle.ost_forms.specs.declared.tree_item.BodySpec.TheVariants.{Given};
ghost use Rattle.script.specs.Field.{Gives, IsFieldOf, Spells};
ghost use Rattle.script_reader.specs.Values.{IsContent, IsFillBody};

use ost_forms::BodySpec;
use ost_types::NoMemory;
use script::{byte_of, number_of, read_field, unescape};
use std::alloc::Global;

/// The content of a file that a field has: bytes that are given, or one byte many times.
pub fn read_content(alloc: Global, field: &[u8]) -> Result<Option<BodySpec>, NoMemory>
    ensures { IfOk result (Gives (IsContent field.now)) }
{
    let Some((first, text)) = field.split_first() else {
        return Ok(None);
    };
    if *first == b'=' {
        read_given(alloc, text)
    } else {
        read_fill(alloc, field)
    }
}

fn read_given(alloc: Global, text: &[u8]) -> Result<Option<BodySpec>, NoMemory>
    ensures { IfOk result (Gives (λ body. (bytes : List ℕ) × (body ≡ Given bytes) × Spells text.now bytes)) }
{
    match unescape(alloc, text)? {
        Some(bytes) => Ok(Some(BodySpec::Given(bytes))),
        None => Ok(None),
    }
}

fn read_fill(alloc: Global, field: &[u8]) -> Result<Option<BodySpec>, NoMemory>
    ensures { IfOk result (Gives (IsFieldOf IsFillBody field.now)) }
{
    match read_field(alloc, field)? {
        Some(text) => Ok(fill_of(text.as_slice())),
        None => Ok(None),
    }
}

/// The most bytes that a file may have that is one byte many times.
const FILL_LIMIT: u64 = 268_435_456;

fn fill_of(text: &[u8]) -> Option<BodySpec>
    ensures { Gives (IsFillBody text.now) result }
{
    let Some((digits, value)) = split_fill(text) else {
        return None;
    };
    let Some(len) = number_of(digits) else {
        return None;
    };
    let Some(byte) = value_of(value) else {
        return None;
    };
    if len > FILL_LIMIT {
        return None;
    }
    Some(BodySpec::Fill { len, byte })
}

/// The digits of the number behind the star, and the three bytes at the end.
fn split_fill(text: &[u8]) -> Option<(&[u8], &[u8])>
    ensures some { IfSome result (λ p. (text.now ≡ 42 ∷ (p.0.now ++ p.1.now)) × (length p.1.now ≡ 3)) }
    ensures none { IsNone result → (rest : List ℕ) → text.now ≡ 42 ∷ rest → length rest < 3 }
{
    let (first, rest) = text.split_first()?;
    if *first != b'*' || rest.len() < 3 {
        return None;
    }
    Some(rest.split_at(rest.len() - 3))
}

/// The byte whose two digits stand behind a colon.
fn value_of(text: &[u8]) -> Option<u8>
    ensures value { MatchOption result ((b : ℕ) → b < 256 → text.now ≢ 58 ∷ hex_of (b ∷ [])) (λ b. text.now ≡ 58 ∷ hex_of (b ∷ [])) }
    ensures small { IfSome result (λ b. b < 256) }
{
    let Some((first, digits)) = text.split_first() else {
        return None;
    };
    if *first == b':' {
        byte_of(digits)
    } else {
        None
    }
}
