use boot_model::{BootItem, DepId};
use kernel_copy::KernelFiles;
use ost_types::{Bytes, Csum, FsPath, Limits, PathMap, Texts};
use repo_layout::OsName;

/// What is deployed, and in front of what.
#[derive(Drop, Debug)]
pub struct Deploy {
    /// Where files are staged: a path that nobody else uses.
    pub stage: FsPath,
    /// The list that boots now, its first member first.
    pub items: Vec<BootItem>,
    /// The deployments that stay, whatever their place.
    pub used: Vec<DepId>,
    /// The stateroot of the new deployment.
    pub os: OsName,
    pub commit: Csum,
    /// The tree of its commit.
    pub tree: PathMap,
    /// What its kernel boots with.
    pub kernel: KernelFiles,
    /// The words for its kernel's command line, but the one that names it.
    pub kargs: Texts,
    /// The text of its origin file.
    pub origin: Bytes,
    /// The bounds of what is read.
    pub limits: Limits,
}
