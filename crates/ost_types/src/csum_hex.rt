ghost use Rattle.std.specs.Prelude.{◌≡◌, ◌↔◌, List, ℕ, length, Some, IsSome, IfSome, IsTrue};
ghost use Rattle.hex.specs.Hex.{IsBytes};
ghost use Rattle.ost_types.specs.Csum.{hex_of, IsHexDigit, IsHexSum};

use crate::Csum;

impl Csum {
    pub fn as_slice(&self) -> &[u8]
        ensures value { result.now ≡ self.now }
        ensures whole { length result.now ≡ 32 }
        ensures fits { IsBytes result.now }
    {
        let bytes = self.bytes().as_slice();
        bytes
    }

    /// The sum of 64 digits `0` to `9` and `a` to `f`, or None where the text is anything else.
    pub fn from_hex(text: &[u8]) -> Option<Csum>
        ensures exact { IsSome result ↔ IsHexSum text.now }
        ensures value { IfSome result (λ c. hex_of c ≡ text.now) }
        ensures back { (bytes : List ℕ) → IsBytes bytes → length bytes ≡ 32 → hex_of bytes ≡ text.now → result ≡ Some bytes }
    {
        if !is_hex_sum(text) {
            return None;
        }
        let mut bytes = [0; 32];
        match hex::decode_to_slice(text, &mut bytes) {
            Ok(()) => Some(Csum::from_bytes(bytes)),
            Err(_) => None,
        }
    }

    /// The 64 digits of the sum, with lower case letters.
    pub fn to_hex(&self) -> [u8; 64]
        ensures value { result ≡ hex_of self.now }
        ensures digits { IsHexSum result }
    {
        let mut text = [0; 64];
        let Ok(()) = hex::encode_to_slice(self.as_slice(), &mut text) else {
            unreachable!()
        };
        text
    }
}

fn is_hex_sum(text: &[u8]) -> bool
    ensures { IsTrue result ↔ IsHexSum text.now }
{
    text.len() == 64 && text.iter().all(|byte| is_hex_digit(*byte))
}

fn is_hex_digit(byte: u8) -> bool
    ensures { IsTrue result ↔ IsHexDigit byte }
{
    matches!(byte, b'0'..=b'9' | b'a'..=b'f')
}
