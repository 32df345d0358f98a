//! Calls of `boot_swap` on a disk in memory.
use crate::changes::{change, deploy, lay_out};
use crate::crashes::{add_moments, unsynced};
use crate::failing::add_failing;
use crate::listing::listing;
use crate::looks::{known, look};
use crate::members::{items_of, told_items};
use crate::outcome::Outcome;
use crate::reading::{read, read_failing};
use crate::untold::Untold;
use boot_fit::may_boot;
use boot_model::BootItem;
use boot_swap::swap;
use fs_memory::MemFs;
use fs_trait::{Fs, FsErr};
use sheet::{Bench, Fields, Stop, text};
use std::alloc::Global;

/// A disk on which lists boot.
#[derive(Drop)]
pub struct SwapBench {
    fs: Untold,
}

impl SwapBench {
    pub fn new(alloc: Global) -> Result<SwapBench, Stop> {
        Ok(SwapBench {
            fs: new_disk(alloc)?,
        })
    }
}

fn new_disk(alloc: Global) -> Result<Untold, Stop> {
    let mut fs = Untold::new(MemFs::new(alloc)?);
    lay_out(&mut fs, alloc)?;
    Ok(fs)
}

impl Bench for SwapBench {
    fn answer(&mut self, name: &str, fields: Fields) -> Result<Vec<u8>, Stop> {
        let mut fields = fields;
        match name {
            "new" => renew(&mut self.fs, &fields),
            "list" => listing(fields.alloc(), &mut self.fs.disk),
            "read" => read(fields.alloc(), &mut self.fs.disk),
            "read_failing" => read_failing(fields.alloc(), &self.fs.disk),
            "look" => look(&mut self.fs.disk, &mut fields),
            "swap" => swapped(&mut self.fs, &mut fields),
            "unsynced" => swapped_unsynced(&mut self.fs, &mut fields),
            "crashes" => crashes(&mut self.fs, &mut fields),
            "failures" => failures(&mut self.fs, &mut fields),
            _ => change(&mut self.fs, name, &mut fields),
        }
    }
}

fn renew(fs: &mut Untold, fields: &Fields) -> Result<Vec<u8>, Stop> {
    let disk = new_disk(fields.alloc())?;
    drop(std::mem::replace(fs, disk));
    text(fields.alloc(), "ok")
}

/// Lets the list boot.
pub fn swap_to(
    alloc: Global,
    fs: &mut Untold,
    items: Vec<BootItem>,
) -> Result<Result<(), FsErr>, Stop> {
    if !may_boot(&items) {
        return Err(Stop::Unknown);
    }
    Ok(swap(alloc, fs, items))
}

// The deployments are made before.
fn swapped(fs: &mut Untold, fields: &mut Fields) -> Result<Vec<u8>, Stop> {
    let alloc = fields.alloc();
    let items = items_of(alloc, fields.text()?)?;
    deploy(fs, alloc, &items)?;
    known(swap_to(alloc, fs, items)?)?;
    text(alloc, "ok")
}

// What crashes before the last call of the swap leave; the disk is then as after it.
fn swapped_unsynced(fs: &mut Untold, fields: &mut Fields) -> Result<Vec<u8>, Stop> {
    let alloc = fields.alloc();
    swapped(fs, fields)?;
    unsynced(alloc, &fs.disk)
}

// The lists before and after a swap to these items.
fn outcome_of(fs: &mut Untold, alloc: Global, items: &[BootItem]) -> Result<Outcome, Stop> {
    let old = listing(alloc, &mut fs.disk)?;
    Ok(Outcome::new(old, told_items(alloc, items)?))
}

// What each crash of a swap to this list leaves; the disk is then as after it.
fn crashes(fs: &mut Untold, fields: &mut Fields) -> Result<Vec<u8>, Stop> {
    let alloc = fields.alloc();
    let items = items_of(alloc, fields.text()?)?;
    deploy(fs, alloc, &items)?;
    let mut outcome = outcome_of(fs, alloc, &items)?;
    let begun = fs.disk.moments();
    known(swap_to(alloc, fs, items)?)?;
    add_moments(alloc, fs, begun, &mut outcome)
}

// What failing calls of a swap to this list leave; the disk stays as it is.
fn failures(fs: &mut Untold, fields: &mut Fields) -> Result<Vec<u8>, Stop> {
    let alloc = fields.alloc();
    let list = fields.text()?;
    let items = items_of(alloc, list)?;
    deploy(fs, alloc, &items)?;
    let mut outcome = outcome_of(fs, alloc, &items)?;
    add_failing(alloc, &fs.disk, list, &mut outcome)
}
