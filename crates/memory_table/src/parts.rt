ghost use Rattle.std.specs.Prelude.{◌≡◌, ◌≢◌, ◌<◌, List, ℕ, [], length, IfNone, IfSome};
ghost use Rattle.ost_types.specs.Path.{Path, AreNames, under};
ghost use Rattle.ost_types.specs.Flat.{flat};

/// The text of a path, in its folder's text and its last name.
#[derive(Clone, Copy)]
pub struct Parts<'a> {
    pub folder: &'a [u8],
    pub name: &'a [u8],
}

/// The text of a path's folder.
pub fn folder_of(text: &[u8]) -> &[u8]
    ensures value { (f : Path) (x : List ℕ) → AreNames (under f x) → text.now ≡ flat (under f x) → result.now ≡ flat f }
    ensures shorter { 0 < length text.now → length result.now < length text.now }
{
    if text.is_empty() {
        return text;
    }
    let mut end = text.len() - 1;
    while end > 0 {
        if text[end - 1] == 0 {
            return &text[..end];
        }
        end -= 1;
    }
    &text[..0]
}

/// The parts of a path's text, but of the root's.
pub fn split(text: &[u8]) -> Option<Parts<'_>>
    ensures none { IfNone result (text.now ≡ []) }
    ensures filled { IfSome result (λ r. text.now ≢ []) }
    ensures some { IfSome result (λ r. (f : Path) (x : List ℕ) → AreNames (under f x) → text.now ≡ flat (under f x) → (r.folder.now ≡ flat f) × (r.name.now ≡ x)) }
{
    if text.is_empty() {
        return None;
    }
    let folder = folder_of(text);
    Some(Parts {
        folder,
        name: &text[folder.len()..text.len() - 1],
    })
}
