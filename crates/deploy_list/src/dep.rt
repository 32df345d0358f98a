use boot_model::DepId;
use ost_types::{NoMemory, PathMap, Texts, TryCopy};

/// A member of the list of deployments.
#[derive(Drop, Debug)]
pub struct Dep {
    pub id: DepId,
    /// The words for its kernel's command line, but the one that names the deployment.
    pub kargs: Texts,
    /// What its commit has under `/usr/etc`.
    pub defaults: PathMap,
    /// What its changeable `/etc` has.
    pub etc: PathMap,
}

impl TryCopy for Dep {
    fn copy(&self) -> Result<Dep, NoMemory> {
        Ok(Dep {
            id: self.id.copy()?,
            kargs: self.kargs.copy()?,
            defaults: self.defaults.copy()?,
            etc: self.etc.copy()?,
        })
    }
}
