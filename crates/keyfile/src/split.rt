//! Slices on both sides of a byte.
ghost use Rattle.std.specs.Prelude.{◌≡◌, ◌≢◌, ◌∷◌, ◌++◌, All, MatchOption};

/// The text before the first such byte and the text behind it, or None where there is no such byte.
pub fn split_before(text: &[u8], byte: u8) -> Option<(&[u8], &[u8])>
    ensures { MatchOption result (All (λ b. b ≢ byte) text.now) (λ p. (text.now ≡ p.0.now ++ byte ∷ p.1.now) × All (λ b. b ≢ byte) p.0.now) }
{
    let end = text.iter().position(|other| *other == byte)?;
    let (front, behind) = text.split_at(end);
    Some((front, &behind[1..]))
}
