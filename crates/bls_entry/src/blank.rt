//! Blanks part a line's key from its value, and the words of options from one another.
ghost use Rattle.std.specs.Prelude.{◌≡◌, ◌++◌, All, true, false};
ghost use Rattle.bls_entry.specs.Line.{EndsOrBegins, is_blank};

pub fn is_blank(byte: u8) -> bool
    ensures { result ≡ is_blank byte }
{
    byte == b' ' || byte == b'\t'
}

/// The bytes before the first blank, and those from it on.
pub fn split_at_blank(text: &[u8]) -> (&[u8], &[u8])
    ensures whole { text.now ≡ result.0.now ++ result.1.now }
    ensures word { All (λ b. is_blank b ≡ false) result.0.now }
    ensures rest { EndsOrBegins true result.1.now }
{
    let end = text
        .iter()
        .position(|byte| is_blank(*byte))
        .unwrap_or(text.len());
    text.split_at(end)
}

/// The blanks at the front, and the bytes behind them.
pub fn split_blanks(text: &[u8]) -> (&[u8], &[u8])
    ensures whole { text.now ≡ result.0.now ++ result.1.now }
    ensures blanks { All (λ b. is_blank b ≡ true) result.0.now }
    ensures rest { EndsOrBegins false result.1.now }
{
    let start = text
        .iter()
        .position(|byte| !is_blank(*byte))
        .unwrap_or(text.len());
    text.split_at(start)
}
