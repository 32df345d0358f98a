//! Bytes as a field: those outside `!` to `~`, and `%`, as `%` and two digits.
ghost use Rattle.std.specs.Prelude.{◌≡◌, ◌++◌, ◌∷◌, [], OnOk};
ghost use Rattle.ost_types.specs.Csum.{hex_of};
ghost use Rattle.script.specs.Field.{escaped, field_text, is_plain};

use ost_types::{Bytes, NoMemory};

/// Appends any bytes as a field: no bytes as `~`, and the one byte `~` by its digits. After an error a part of it may
/// stand there.
pub fn append_bytes(line: &mut Bytes, value: &[u8]) -> Result<(), NoMemory>
    ensures { OnOk result (line.new ≡ line.old ++ field_text value.now) }
{
    match value {
        [] => line.append(b"~"),
        [b'~'] => line.append(b"%7e"),
        _ => append_field(line, value),
    }
}

/// Appends bytes as a field that are some, and not `~` alone: a path, or a name. After an error a part of it may stand
/// there.
pub fn append_field(line: &mut Bytes, value: &[u8]) -> Result<(), NoMemory>
    ensures { OnOk result (line.new ≡ line.old ++ escaped value.now) }
{
    for byte in value {
        if is_plain(*byte) {
            line.push(*byte)?;
        } else {
            line.append(&escape(*byte))?;
        }
    }
    Ok(())
}

pub(crate) fn is_plain(byte: u8) -> bool
    ensures { result ≡ is_plain byte }
{
    (b'!'..=b'~').contains(&byte) && byte != b'%'
}

pub(crate) fn escape(byte: u8) -> [u8; 3]
    ensures { result ≡ 37 ∷ hex_of (byte ∷ []) }
{
    [
        b'%',
        HEX_DIGITS[(byte / 16) as usize],
        HEX_DIGITS[(byte % 16) as usize],
    ]
}

const HEX_DIGITS: &[u8; 16] = b"0123456789abcdef";
