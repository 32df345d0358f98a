use boot_model::DepId;
use ost_types::{Csum, Name, NoMemory, Texts, TryCopy};

/// A row of the list of deployments that a disk boots.
#[derive(Drop, Debug)]
pub struct BootRow {
    /// The name of its entry's file.
    pub file: Name,
    /// The version of its entry.
    pub version: u32,
    /// The deployment to which its link leads.
    pub id: DepId,
    /// The words of its entry's options, but the one that names the link.
    pub kargs: Texts,
    /// The sum of its kernel, as the link tells it.
    pub bootcsum: Csum,
    /// Which of the links of this stateroot and this sum it is, from 0.
    pub number: u32,
}

impl TryCopy for BootRow {
    fn copy(&self) -> Result<BootRow, NoMemory> {
        Ok(BootRow {
            file: self.file.copy()?,
            version: self.version,
            id: self.id.copy()?,
            kargs: self.kargs.copy()?,
            bootcsum: self.bootcsum,
            number: self.number,
        })
    }
}
