//! The keys of which a boot entry has one each.
ghost use Rattle.std.specs.Prelude.{◌≡◌, ◌≢◌, MatchOption};
ghost use Rattle.bls_entry.specs.Line.{spelled};
ghost use Rattle.bls_entry.specs.declared.key.Key.{Key};

#[derive(Clone, Copy, Debug, PartialEq, Eq)]
pub enum Key {
    Title,
    Version,
    Options,
    Linux,
    Initrd,
}

/// The key of this name, or None for a key that is passed over.
pub fn key_of(name: &[u8]) -> Option<Key>
    ensures { MatchOption result ((key : Key) → name.now ≢ spelled key) (λ key. name.now ≡ spelled key) }
{
    match name {
        b"title" => Some(Key::Title),
        b"version" => Some(Key::Version),
        b"options" => Some(Key::Options),
        b"linux" => Some(Key::Linux),
        b"initrd" => Some(Key::Initrd),
        _ => None,
    }
}
