//! Who syncs the young files.
use crate::Syncs;
use crate::share::Share;
use crate::young::YoungFile;

/// What has each share sync its files.
pub trait Syncer: Drop {
    /// A share that it leaves out has failed.
    fn sync(&self, files: &[YoungFile], shares: &mut [Share]);
}

/// One share after the other.
#[derive(Drop)]
pub struct InTurn<R> {
    rt: R,
}

impl<R: Syncs> InTurn<R> {
    pub fn new(rt: R) -> InTurn<R> {
        InTurn { rt }
    }
}

impl<R: Syncs + Drop> Syncer for InTurn<R> {
    fn sync(&self, files: &[YoungFile], shares: &mut [Share]) {
        for share in shares.iter_mut() {
            share.sync(&self.rt, files);
        }
    }
}
