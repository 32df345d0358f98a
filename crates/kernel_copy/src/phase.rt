/// What the next step does.
#[derive(Clone, Copy, Debug, PartialEq, Eq)]
pub enum KernelPhase {
    /// Makes the folder of the copies, where nothing stands.
    Folder,
    /// Puts the kernel's copy.
    Kernel,
    /// Puts the copy of what it first mounts.
    Initramfs,
    /// Nothing: the copies are there.
    Ended,
}
