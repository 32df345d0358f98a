use ost_types::{NoMemory, Text, TryCopy};

/// One boot target.
#[derive(Drop, Debug, PartialEq, Eq)]
pub struct BlsEntry {
    /// What a menu shows of it.
    pub title: Text,
    /// The target with the greatest version comes first in a menu.
    pub version: u32,
    /// The words of the kernel's command line. Those that begin `ostree=` name a deployment.
    pub options: Text,
    /// The kernel, as a path from the folder that the boot loader reads.
    pub linux: Text,
    /// The initramfs, as such a path.
    pub initrd: Option<Text>,
}

impl TryCopy for BlsEntry {
    fn copy(&self) -> Result<BlsEntry, NoMemory> {
        let initrd = match &self.initrd {
            Some(initrd) => Some(initrd.copy()?),
            None => None,
        };
        Ok(BlsEntry {
            title: self.title.copy()?,
            version: self.version,
            options: self.options.copy()?,
            linux: self.linux.copy()?,
            initrd,
        })
    }
}
