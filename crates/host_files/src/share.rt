//! The syncs of the young files, in shares of which several may be made at once.
use crate::place::spell_young;
use crate::young::YoungFile;
use crate::{HostPath, Syncs};
use ost_types::NoMemory;
use std::alloc::Global;

// How many shares there are.
const SHARES: u32 = 64;

/// Each 64th of the young files, from one number on.
#[derive(Drop)]
pub struct Share {
    first: u32,
    text: HostPath,
    is_synced: bool,
}

impl Share {
    /// All shares.
    pub fn all(alloc: Global) -> Result<Vec<Share>, NoMemory> {
        let mut shares = Vec::new(alloc);
        for first in 0..SHARES {
            shares.push(Share {
                first,
                text: HostPath::new(alloc)?,
                is_synced: false,
            })?;
        }
        Ok(shares)
    }

    /// Before its files are synced.
    pub fn begin(&mut self) {
        self.is_synced = false;
    }

    /// Whether all of its files were synced.
    pub fn is_synced(&self) -> bool {
        self.is_synced
    }

    /// Syncs those of its files that are to have names.
    pub fn sync<R: Syncs>(&mut self, rt: &R, files: &[YoungFile]) {
        self.is_synced = sync_from(rt, files, self.first, &mut self.text);
    }
}

fn sync_from<R: Syncs>(rt: &R, files: &[YoungFile], first: u32, text: &mut HostPath) -> bool {
    let mut number = 0u32;
    for file in files {
        if file.names > 0 && number % SHARES == first {
            spell_young(number, text);
            if !rt.sync_at(text.as_str()) {
                return false;
            }
        }
        number = number.saturating_add(1);
    }
    true
}
