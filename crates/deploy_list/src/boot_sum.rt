//! The sum by which a kernel's folder of copies is named.
ghost use Rattle.std.specs.Prelude.{◌≡◌, ◌++◌, ℕ, List};
ghost use Rattle.std.specs.Int.{to_be_bytes, w64};
ghost use Rattle.sha2.specs.Sha256.{sha256};
ghost use Rattle.deploy_list.specs.BootSum.{HasTaken, boot_bytes};

use ost_types::Csum;
use sha2::{Digest, Sha256};

/// A sum that is being made, of bytes that come in pieces of any length: first the kernel's, and then those of what it first mounts.
#[derive(Drop)]
pub struct BootSum {
    hasher: Sha256,
}

impl BootSum {
    /// The kernel's length comes first, in eight bytes, the greatest first.
    pub fn begin(kernel_len: u64) -> BootSum
        ensures { HasTaken result (to_be_bytes w64 kernel_len) }
    {
        let mut hasher = Sha256::new();
        hasher.update(kernel_len.to_be_bytes());
        BootSum { hasher }
    }

    pub fn append(&mut self, piece: &[u8])
        ensures { (bytes : List ℕ) → HasTaken self.old bytes → HasTaken self.new (bytes ++ piece.now) }
    {
        self.hasher.update(piece);
    }

    pub fn finish(self) -> Csum
        ensures { (bytes : List ℕ) → HasTaken self bytes → result ≡ sha256 bytes }
    {
        Csum::from_bytes(self.hasher.finalize())
    }
}

/// The SHA-256 of the kernel's length, the kernel and what it first mounts, of which there may be nothing.
pub fn bootcsum(kernel: &[u8], initramfs: &[u8]) -> Csum
    ensures { result ≡ sha256 (boot_bytes kernel.now initramfs.now) }
{
    let mut sum = BootSum::begin(kernel.len() as u64);
    sum.append(kernel);
    sum.append(initramfs);
    sum.finish()
}
