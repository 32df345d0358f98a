//! The words of an entry's options.
ghost use Rattle.std.specs.Prelude.{◌≡◌, ◌<◌, ◌++◌, true, false, length, All, IfOk, OnOk};
ghost use Rattle.ost_types.specs.Text.{IsText};
ghost use Rattle.bls_entry.specs.Line.{EndsOrBegins, is_blank};
ghost use Rattle.boot_read.specs.Entries.{other_words};

use ost_types::{NoMemory, Text, Texts};
use std::alloc::Global;

/// The words of the options that name no deployment.
pub(crate) fn other_words(alloc: Global, options: &Text) -> Result<Texts, NoMemory>
    ensures { IfOk result (λ words. words ≡ other_words options.now) }
{
    let mut words = Texts::new(alloc);
    let mut rest = options.as_slice();
    while !rest.is_empty() {
        let (word, behind) = split_word(rest);
        push_word(alloc, &mut words, word)?;
        rest = behind;
    }
    Ok(words)
}

// the word, unless it is empty or names a deployment
fn push_word(alloc: Global, words: &mut Texts, word: &[u8]) -> Result<(), NoMemory>
    requires text { IsText word.now }
    requires plain { All (λ b. is_blank b ≡ false) word.now }
    ensures { OnOk result (words.new ≡ words.old ++ other_words word.now) }
{
    if word.is_empty() || word.starts_with(b"ostree=") {
        return Ok(());
    }
    match Text::parse(alloc, word)? {
        Some(text) => words.push(text),
        None => unreachable!(),
    }
}

// the word at the front, and what stands behind the blank after it
fn split_word(text: &[u8]) -> (&[u8], &[u8])
    ensures words { other_words text.now ≡ other_words result.0.now ++ other_words result.1.now }
    ensures plain { All (λ b. is_blank b ≡ false) result.0.now }
    ensures shorter { 0 < length text.now → length result.1.now < length text.now }
    ensures texts { IsText text.now → IsText result.0.now × IsText result.1.now }
{
    let (word, rest) = split_at_blank(text);
    match rest {
        [_, behind @ ..] => (word, behind),
        [] => (word, rest),
    }
}

// the bytes before the first blank, and those from it on
fn split_at_blank(text: &[u8]) -> (&[u8], &[u8])
    ensures whole { text.now ≡ result.0.now ++ result.1.now }
    ensures word { All (λ b. is_blank b ≡ false) result.0.now }
    ensures rest { EndsOrBegins true result.1.now }
{
    let end = text
        .iter()
        .position(|byte| is_blank(*byte))
        .unwrap_or(text.len());
    text.split_at(end)
}

fn is_blank(byte: u8) -> bool
    ensures { result ≡ is_blank byte }
{
    byte == b' ' || byte == b'\t'
}
