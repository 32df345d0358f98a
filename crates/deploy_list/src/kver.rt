//! Versions of kernels.
ghost use Rattle.std.specs.Prelude.{◌≡◌, ◌&&◌, nat_le};
ghost use Rattle.std.specs.List.{list_all};
ghost use Rattle.boot_model.specs.Items.{is_kver_byte};
ghost use Rattle.deploy_list.specs.Kernels.{is_kver};

/// Whether the name of a folder is a kernel's version: 1 to 241 bytes of `A-Z a-z 0-9 - _ . + ~`.
pub fn is_kver(name: &[u8]) -> bool
    ensures { result ≡ is_kver name.now }
{
    is_kver_len(name.len()) && are_kver_bytes(name)
}

fn is_kver_len(len: usize) -> bool
    ensures { result ≡ (nat_le 1 len && nat_le len 241) }
{
    1 <= len && len <= 241
}

fn are_kver_bytes(name: &[u8]) -> bool
    ensures { result ≡ list_all is_kver_byte name.now }
{
    name.iter().all(|byte| is_kver_byte(*byte))
}

fn is_kver_byte(byte: u8) -> bool
    ensures { result ≡ is_kver_byte byte }
{
    byte.is_ascii_alphanumeric()
        || byte == b'-'
        || byte == b'_'
        || byte == b'.'
        || byte == b'+'
        || byte == b'~'
}
