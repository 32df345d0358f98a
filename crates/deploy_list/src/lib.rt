//! The list of deployments: what a new one is numbered, which stay behind it, and what kernel it boots (OSTree manual,
//! "Deployments").
#![tactic(auto)]

mod boot_sum;
mod dep;
mod fault;
mod kept;
mod kernel;
mod kver;
mod laws;
mod place;
mod serial;

pub use boot_sum::{BootSum, bootcsum};
pub use dep::Dep;
pub use fault::KernelFault;
pub use kept::kept_behind;
pub use kernel::kver_of;
pub use laws::{entries_are_read, kernels_are_found};
pub use serial::serial_for;
