//! Copies of a kernel beside the boot entries (OSTree manual, "Deployments"; Boot Loader Specification): one folder for each
//! stateroot and sum, with the kernel and what it first mounts.
#![tactic(auto)]

mod compare;
mod files;
mod names;
mod paths;
mod phase;
mod task;

pub use compare::first_other_copy;
pub use files::KernelFiles;
pub use paths::{initramfs_path, kernel_path, vmlinuz_path};
pub use phase::KernelPhase;
pub use task::KernelTask;
