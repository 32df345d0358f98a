ghost use Rattle.std.specs.Prelude.{◌≡◌, IfOk};

use ost_types::{Csum, Name, NoMemory, Texts, TryCopy};
use repo_layout::OsName;

/// The name of a deployment.
#[derive(Drop, Debug, PartialEq, Eq)]
pub struct DepId {
    /// Its stateroot.
    pub os: OsName,
    /// The commit that is checked out.
    pub commit: Csum,
    /// Which of the deployments of this stateroot and commit it is, from 0.
    pub serial: u32,
}

impl TryCopy for DepId {
    fn copy(&self) -> Result<DepId, NoMemory> {
        Ok(DepId {
            os: self.os.copy()?,
            commit: self.commit,
            serial: self.serial,
        })
    }
}

/// The kernel of a deployment.
#[derive(Drop, Debug, PartialEq, Eq)]
pub struct Kernel {
    /// Its version, by which its files are named.
    pub kver: Name,
    /// The SHA-256 of the kernel and what it first mounts.
    pub bootcsum: Csum,
    /// Whether there is something that it first mounts.
    pub initramfs: bool,
}

impl TryCopy for Kernel {
    fn copy(&self) -> Result<Kernel, NoMemory> {
        Ok(Kernel {
            kver: self.kver.copy()?,
            bootcsum: self.bootcsum,
            initramfs: self.initramfs,
        })
    }
}

/// A member of the list of deployments, as the boot loader is told of it.
#[derive(Drop, Debug)]
pub struct BootItem {
    pub id: DepId,
    /// The words for its kernel's command line, but the one that names the deployment.
    pub kargs: Texts,
    pub kernel: Kernel,
}

impl TryCopy for BootItem {
    fn copy(&self) -> Result<BootItem, NoMemory> {
        Ok(BootItem {
            id: self.id.copy()?,
            kargs: self.kargs.copy()?,
            kernel: self.kernel.copy()?,
        })
    }
}
