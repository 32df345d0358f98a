//! Slices on both sides of a newline.
ghost use Rattle.std.specs.Prelude.{◌≡◌, ◌≢◌, ◌∷◌, ◌++◌, All, MatchOption};

/// The text before the first newline and the text behind it, or None where there is no newline.
pub fn split_line(text: &[u8]) -> Option<(&[u8], &[u8])>
    ensures { MatchOption result (All (λ b. b ≢ 10) text.now) (λ p. (text.now ≡ p.0.now ++ 10 ∷ p.1.now) × All (λ b. b ≢ 10) p.0.now) }
{
    let end = text.iter().position(|byte| *byte == b'\n')?;
    let (line, behind) = text.split_at(end);
    Some((line, &behind[1..]))
}
