//! The word of options that names a deployment.
ghost use Rattle.std.specs.Prelude.{◌≡◌, ◌<◌, ◌⊎◌, ◌++◌, ◌∷◌, ◌↔◌, ℕ, List, IsTrue, if◌then◌else◌, [], MatchOption, length};
ghost use Rattle.bls_entry.specs.Entry.{NamesOne};
ghost use Rattle.bls_entry.specs.Options.{HasOstree, is_ostree, ostree_words};

use crate::blank::split_at_blank;

/// What stands behind `ostree=` in the one word of the options that begins so, or None where no word does, or several do.
pub fn ostree_value(options: &[u8]) -> Option<&[u8]>
    ensures { MatchOption result ((value : List ℕ) → ¬ (HasOstree options.now value)) (λ value. HasOstree options.now value.now) }
{
    let mut found = None;
    let mut rest = options;
    while !rest.is_empty() {
        let (word, behind) = split_word(rest);
        if let Some(value) = word.strip_prefix(b"ostree=") {
            if found.is_some() {
                return None;
            }
            found = Some(value);
        }
        rest = behind;
    }
    found
}

/// Whether the options name one deployment.
pub fn names_one(options: &[u8]) -> bool
    ensures { IsTrue result ↔ NamesOne options.now }
{
    ostree_value(options).is_some()
}

/// The bytes before the first blank, and those behind it.
fn split_word(text: &[u8]) -> (&[u8], &[u8])
    ensures words { ostree_words text.now ≡ (if is_ostree result.0.now then result.0.now ∷ [] else []) ++ ostree_words result.1.now }
    ensures shorter { 0 < length text.now → length result.1.now < length text.now }
{
    let (word, rest) = split_at_blank(text);
    match rest {
        [_, behind @ ..] => (word, behind),
        [] => (word, rest),
    }
}
