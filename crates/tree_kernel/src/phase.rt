//! What each step of a sum does.
ghost use Rattle.std.specs.Prelude.{◌≡◌, List, ℕ, Option};
ghost use Rattle.tree_kernel.specs.Sizes.{HasSize};
ghost use Rattle.tree_kernel.specs.Summing.{initramfs_from, kernel_from, within_in};

use ost_types::Csum;

/// What the next step of a sum does.
#[derive(Clone, Copy, Debug)]
pub(crate) enum SumPhase {
    /// Looks how long both files are.
    Look,
    /// Takes a piece of the kernel.
    Kernel {
        /// The number of its bytes.
        size: u64,
        /// So many of them were taken.
        at: u64,
        /// The number of the bytes of the initramfs.
        after: u64,
    },
    /// Takes a piece of the initramfs.
    Initramfs {
        size: u64,
        at: u64,
    },
    /// Makes the sum: all bytes were taken.
    Finish,
    /// Nothing: this is the sum.
    Ended(Csum),
}

/// What comes next where so many bytes of the kernel were taken.
pub(crate) fn kernel_from(size: u64, at: u64, after: u64) -> SumPhase
    ensures value { result ≡ kernel_from size at after }
    ensures within { (initramfs : Option (List ℕ)) → HasSize initramfs after → within_in result initramfs }
{
    if at < size {
        SumPhase::Kernel { size, at, after }
    } else {
        initramfs_from(after, 0)
    }
}

/// What comes next where the kernel was taken, and so many bytes of the initramfs.
pub(crate) fn initramfs_from(size: u64, at: u64) -> SumPhase
    ensures value { result ≡ initramfs_from size at }
    ensures within { (initramfs : Option (List ℕ)) → HasSize initramfs size → within_in result initramfs }
{
    if at < size {
        SumPhase::Initramfs { size, at }
    } else {
        SumPhase::Finish
    }
}
