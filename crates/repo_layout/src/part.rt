//! A part of a name: what stands between two `/`.
ghost use Rattle.std.specs.Prelude.{◌≡◌, ◌↔◌, IsTrue};
ghost use Rattle.repo_layout.specs.RefName.{IsPart, is_part_byte};

pub fn is_part(part: &[u8]) -> bool
    ensures { IsTrue result ↔ IsPart part.now }
{
    !part.is_empty()
        && part[0] != b'.'
        && part.len() <= 255
        && part.iter().all(|byte| is_part_byte(*byte))
}

fn is_part_byte(byte: u8) -> bool
    ensures { result ≡ is_part_byte byte }
{
    byte.is_ascii_alphanumeric() || byte == b'-' || byte == b'_' || byte == b'.'
}
