//! Whether a deployment may be in a list.
ghost use Rattle.std.specs.Prelude.{◌≡◌, ◌↔◌, IsTrue, take, codes, All};
ghost use Rattle.boot_model.specs.Items.{IsItem, IsKarg, IsKver, IsWordByte, is_kver_byte};

use boot_model::BootItem;
use ost_types::{Name, Text};

/// Whether the kernel's version and the words for its command line can stand in a boot entry.
pub(crate) fn is_item(item: &BootItem) -> bool
    ensures { IsTrue result ↔ IsItem item.now }
{
    let _os = item.id.os.as_slice();
    let _commit = item.id.commit.as_slice();
    let _sum = item.kernel.bootcsum.as_slice();
    is_kver(&item.kernel.kver) && are_kargs(item.kargs.as_slice())
}

fn is_kver(kver: &Name) -> bool
    ensures { IsTrue result ↔ IsKver kver.now }
{
    let bytes = kver.as_slice();
    !bytes.is_empty() && bytes.len() <= 241 && are_kver_bytes(bytes)
}

fn are_kver_bytes(bytes: &[u8]) -> bool
    ensures { IsTrue result ↔ All (λ b. IsTrue (is_kver_byte b)) bytes.now }
{
    bytes.iter().all(|byte| is_kver_byte(*byte))
}

fn is_kver_byte(byte: u8) -> bool
    ensures { result ≡ is_kver_byte byte }
{
    byte.is_ascii_alphanumeric()
        || byte == b'-'
        || byte == b'_'
        || byte == b'.'
        || byte == b'+'
        || byte == b'~'
}

fn are_kargs(words: &[Text]) -> bool
    ensures { IsTrue result ↔ All IsKarg words.now }
{
    words.iter().all(|word| is_karg(word))
}

fn is_karg(word: &Text) -> bool
    ensures { IsTrue result ↔ IsKarg word.now }
{
    let bytes = word.as_slice();
    !bytes.is_empty() && are_word_bytes(bytes) && !names_deployment(bytes)
}

fn are_word_bytes(bytes: &[u8]) -> bool
    ensures { IsTrue result ↔ All IsWordByte bytes.now }
{
    bytes.iter().all(|byte| is_word_byte(*byte))
}

fn is_word_byte(byte: u8) -> bool
    ensures { IsTrue result ↔ IsWordByte byte }
{
    byte != b' ' && byte != b'\t' && byte != b'\n'
}

fn names_deployment(word: &[u8]) -> bool
    ensures { IsTrue result ↔ (take 7 word.now ≡ codes "ostree=") }
{
    word.starts_with(b"ostree=")
}
