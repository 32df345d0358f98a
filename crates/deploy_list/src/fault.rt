use thiserror::Error;

/// Why a tree can't be deployed.
#[derive(Clone, Copy, Debug, PartialEq, Eq, Error)]
pub enum KernelFault {
    /// It has `/etc`, where a deployment has its own.
    #[error("the tree has `/etc`")]
    EtcInTree,
    /// It has no folder `/usr/etc`.
    #[error("the tree has no folder `/usr/etc`")]
    NoDefaults,
    /// It has no kernel.
    #[error("the tree has no kernel")]
    NoKernel,
    /// It has kernels of two versions.
    #[error("the tree has kernels of two versions")]
    TwoKernels,
}
