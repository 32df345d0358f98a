//! Numbers with the high byte first.

ghost use Rattle.std.specs.Prelude.{◌≡◌, length};
ghost use Rattle.std.specs.Int.{w32, w64, to_be_bytes};

pub(crate) fn number_32(bytes: &[u8]) -> u32
    requires { length bytes.now ≡ 4 }
    ensures { to_be_bytes w32 result ≡ bytes.now }
{
    u32::from_be_bytes([bytes[0], bytes[1], bytes[2], bytes[3]])
}

pub(crate) fn number_64(bytes: &[u8]) -> u64
    requires { length bytes.now ≡ 8 }
    ensures { to_be_bytes w64 result ≡ bytes.now }
{
    u64::from_be_bytes([
        bytes[0], bytes[1], bytes[2], bytes[3], bytes[4], bytes[5], bytes[6], bytes[7],
    ])
}
