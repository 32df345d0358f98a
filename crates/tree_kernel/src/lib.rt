//! The kernel that a commit's tree boots, and the sum by which the folder of its copies is named (OSTree manual, "Deployments").
#![tactic(auto)]

mod find;
mod laws;
mod paths;
mod phase;
mod pieces;
mod summing;

pub use find::{TreeKernel, find_kernel};
pub use laws::trees_boot_once;
pub use summing::KernelSum;
