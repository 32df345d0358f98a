ghost use Rattle.std.specs.Prelude.{◌≡◌, List, ℕ, Some, IfSome, IsNone};
ghost use Rattle.repo_layout.specs.RefFile.{IsSum, ref_text};

use ost_types::Csum;

/// The commit that the bytes of a ref file name: 64 digits `0-9a-f` and a newline. None where they aren't that.
pub fn read_ref(bytes: &[u8]) -> Option<Csum>
    ensures commit { IfSome result IsSum }
    ensures text { IfSome result (λ c. bytes.now ≡ ref_text c) }
    ensures none { IsNone result → (commit : List ℕ) → IsSum commit → ¬ (bytes.now ≡ ref_text commit) }
    ensures back { (commit : List ℕ) → IsSum commit → bytes.now ≡ ref_text commit → result ≡ Some commit }
{
    match bytes {
        [digits @ .., b'\n'] => Csum::from_hex(digits),
        _ => None,
    }
}

/// The bytes of a ref file: the 64 digits of the commit that the ref names, and a newline.
pub fn ref_text(commit: &Csum) -> [u8; 65]
    ensures { result ≡ ref_text commit.now }
{
    let mut text = [b'\n'; 65];
    text[..64].copy_from_slice(&commit.to_hex());
    text
}
