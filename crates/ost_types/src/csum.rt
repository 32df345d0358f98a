ghost use Rattle.std.specs.Prelude.{◌≡◌, List, ℕ, length};

use std::marker::Model;

/// The SHA-256 (FIPS 180-4) of some bytes, by which an object is named.
#[derive(Clone, Copy, Debug, PartialEq, Eq, PartialOrd, Ord)]
pub struct Csum([u8; 32]);

impl Model for Csum {
    ghost Value = { List ℕ };

    ghost view = { λ a. a.0 };

    ghost inverse = { λ bytes. record { 0 = bytes } };
}

impl Csum {
    pub fn from_bytes(bytes: [u8; 32]) -> Csum
        ensures { result ≡ bytes }
    {
        Csum(bytes)
    }

    pub fn bytes(&self) -> &[u8; 32]
        ensures value { result.now ≡ self.now }
        ensures whole { length result.now ≡ 32 }
    {
        &self.0
    }
}
