//! A line of a keyfile.
ghost use Rattle.std.specs.Prelude.{◌≡◌, ◌≢◌, ◌∷◌, ◌++◌, ◌↔◌, [], ℕ, List, IsTrue, MatchOption};
ghost use Rattle.keyfile.specs.Line as lines;
ghost use Rattle.keyfile.specs.Line.{IsGroupByte, IsGroupName, IsKeyByte, IsKeyName, IsLine, IsOneLine, IsValue, line_text};
ghost use Rattle.keyfile.specs.Said.{said};

use crate::split::split_before;

/// What a line is, by slices of its text.
#[derive(Clone, Copy)]
pub enum Line<'a> {
    Blank,
    Comment(&'a [u8]),
    Group(&'a [u8]),
    Key { key: &'a [u8], value: &'a [u8] },
}

/// The line that has this text, or None where none has it.
pub fn read_line(text: &[u8]) -> Option<Line<'_>>
    requires { IsOneLine text.now }
    ensures { MatchOption result ((line : lines.Line) → IsLine line → text.now ≢ line_text line) (λ line. IsLine (said line) × (text.now ≡ line_text (said line))) }
{
    match text {
        [] => Some(Line::Blank),
        [b'#', comment @ ..] => Some(Line::Comment(comment)),
        [b'[', rest @ ..] => read_group(rest),
        _ => read_key(text),
    }
}

/// The group whose line goes on so behind its `[`.
fn read_group(rest: &[u8]) -> Option<Line<'_>>
    ensures { MatchOption result ((name : List ℕ) → IsGroupName name → rest.now ≢ name ++ 93 ∷ []) (λ line. IsLine (said line) × (91 ∷ rest.now ≡ line_text (said line))) }
{
    match rest {
        [name @ .., b']'] if is_group_name(name) => Some(Line::Group(name)),
        _ => None,
    }
}

/// The key and the value on such a line.
fn read_key(text: &[u8]) -> Option<Line<'_>>
    requires { IsOneLine text.now }
    ensures { MatchOption result ((key value : List ℕ) → IsKeyName key → IsValue value → text.now ≢ key ++ 61 ∷ value) (λ line. IsLine (said line) × (text.now ≡ line_text (said line))) }
{
    let Some((key, value)) = split_before(text, b'=') else {
        return None;
    };
    if is_key_name(key) && is_value(value) {
        Some(Line::Key { key, value })
    } else {
        None
    }
}

fn is_group_name(name: &[u8]) -> bool
    ensures { IsTrue result ↔ IsGroupName name.now }
{
    !name.is_empty() && name.iter().all(|byte| is_group_byte(*byte))
}

fn is_group_byte(byte: u8) -> bool
    ensures { IsTrue result ↔ IsGroupByte byte }
{
    matches!(byte, b' '..=b'~') && byte != b'[' && byte != b']'
}

fn is_key_name(name: &[u8]) -> bool
    ensures { IsTrue result ↔ IsKeyName name.now }
{
    !name.is_empty() && name.iter().all(|byte| is_key_byte(*byte))
}

fn is_key_byte(byte: u8) -> bool
    ensures { IsTrue result ↔ IsKeyByte byte }
{
    matches!(byte, b'A'..=b'Z' | b'a'..=b'z' | b'0'..=b'9' | b'-' | b'_' | b'.')
}

fn is_value(value: &[u8]) -> bool
    requires { IsOneLine value.now }
    ensures { IsTrue result ↔ IsValue value.now }
{
    !value.contains(&0) && std::str::from_utf8(value).is_ok()
}
