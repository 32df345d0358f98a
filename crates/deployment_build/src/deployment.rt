use boot_model::DepId;
use kernel_copy::KernelFiles;
use ost_types::{Bytes, PathMap};

/// What a new deployment is made of.
#[derive(Drop, Debug)]
pub struct NewDeployment {
    pub id: DepId,
    /// The tree of its commit.
    pub tree: PathMap,
    /// What its `etc` is to be.
    pub etc: PathMap,
    /// The text of its origin file.
    pub origin: Bytes,
    /// What its kernel boots with.
    pub kernel: KernelFiles,
}
