use ost_types::{Csum, Name};

/// What a kernel boots with: the files of which there are to be copies.
#[derive(Drop, Debug)]
pub struct KernelFiles {
    /// The kernel's version, by which the copies are named.
    pub kver: Name,
    /// The sum of both files, by which the folder of the copies is named.
    pub bootcsum: Csum,
    /// The object of the kernel.
    pub kernel: Csum,
    /// The object of what it first mounts, if there is something.
    pub initramfs: Option<Csum>,
}
