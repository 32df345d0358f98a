ghost use Rattle.std.specs.Prelude.{◌≡◌, length};
ghost use Rattle.sha2.specs.Sha256.{sha256};

use ost_types::Csum;
use sha2::{Digest, Sha256};

/// The SHA-256 (FIPS 180-4) of an object's bytes, by which it is named. A file's bytes are its content stream.
pub fn sum_of(bytes: &[u8]) -> Csum
    ensures { result ≡ sha256 bytes.now }
{
    Csum::from_bytes(Sha256::digest(bytes))
}

/// The sum of which these are the bytes.
pub(crate) fn sum_at(bytes: &[u8]) -> Csum
    requires { length bytes.now ≡ 32 }
    ensures { result ≡ bytes.now }
{
    let mut sum = [0; 32];
    sum.copy_from_slice(bytes);
    Csum::from_bytes(sum)
}
