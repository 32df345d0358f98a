//! Slices on both sides of a byte.
ghost use Rattle.std.specs.Prelude.{◌≡◌, ◌≢◌, ◌∷◌, ◌++◌, All, MatchOption};

/// The bytes before the first byte of this value, and those behind it; None where there is no such byte.
pub(crate) fn split_at_byte(text: &[u8], mark: u8) -> Option<(&[u8], &[u8])>
    ensures { MatchOption result (All (λ b. b ≢ mark) text.now) (λ p. (text.now ≡ p.0.now ++ mark ∷ p.1.now) × All (λ b. b ≢ mark) p.0.now) }
{
    let end = text.iter().position(|byte| *byte == mark)?;
    let (front, behind) = text.split_at(end);
    Some((front, &behind[1..]))
}
