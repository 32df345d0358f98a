//! What crashes leave.
use crate::listing::listing;
use crate::outcome::{Outcome, before_and_after};
use crate::untold::Untold;
use fs_memory::{Choice, MemFs};
use sheet::Stop;
use std::alloc::Global;

/// A number that picks the last of two to six values.
const LAST: u32 = 59;

/// How many choices are tried where there are too many to try each.
const SAMPLES: u32 = 1000;

/// Of so many names each choice is tried.
const FEW: u32 = 10;

// The list that a crash at this moment leaves, by these picks.
fn left_by(alloc: Global, disk: &MemFs, moment: u64, picks: Vec<u32>) -> Result<Vec<u8>, Stop> {
    if moment > disk.moments() {
        return Err(Stop::Unknown);
    }
    let mut left = disk.image(moment, &Choice { picks, fill: 1 })?;
    listing(alloc, &mut left)
}

/// Adds that list.
pub fn add_left(
    alloc: Global,
    disk: &MemFs,
    moment: u64,
    picks: Vec<u32>,
    outcome: &mut Outcome,
) -> Result<(), Stop> {
    let left = left_by(alloc, disk, moment, picks)?;
    outcome.add(&left);
    Ok(())
}

/// Each choice of the oldest and the last value for each of so many names.
pub fn add_each(
    alloc: Global,
    disk: &MemFs,
    moment: u64,
    names: u32,
    outcome: &mut Outcome,
) -> Result<(), Stop> {
    let choices = 1u32.checked_shl(names).ok_or(Stop::Unknown)?;
    for choice in 0..choices {
        add_left(alloc, disk, moment, picks_of(alloc, choice)?, outcome)?;
    }
    Ok(())
}

// The oldest or the last value for each name, by the bits of a choice.
fn picks_of(alloc: Global, choice: u32) -> Result<Vec<u32>, Stop> {
    let mut picks = Vec::new(alloc);
    for name in 0..FEW {
        picks.push(if (choice >> name) & 1 == 0 { 0 } else { LAST })?;
    }
    Ok(picks)
}

// Choices of any value for each name.
fn add_sampled(
    alloc: Global,
    disk: &MemFs,
    moment: u64,
    outcome: &mut Outcome,
) -> Result<(), Stop> {
    let mut seed = 1u32;
    for _ in 0..SAMPLES {
        add_left(
            alloc,
            disk,
            moment,
            sampled_picks(alloc, &mut seed)?,
            outcome,
        )?;
    }
    Ok(())
}

fn sampled_picks(alloc: Global, seed: &mut u32) -> Result<Vec<u32>, Stop> {
    let mut picks = Vec::new(alloc);
    for _ in 0..64 {
        *seed = seed.wrapping_mul(1_664_525).wrapping_add(1_013_904_223);
        picks.push((*seed >> 16) % 60)?;
    }
    Ok(picks)
}

// Where so many calls changed names since all was synced. Each changes one name, and at most one of them another one.
fn add_moment(
    alloc: Global,
    disk: &MemFs,
    moment: u64,
    calls: u64,
    outcome: &mut Outcome,
) -> Result<(), Stop> {
    match u32::try_from(calls) {
        Ok(calls) if calls < FEW => add_each(alloc, disk, moment, calls + 1, outcome),
        _ => add_sampled(alloc, disk, moment, outcome),
    }
}

/// What a crash leaves at each moment since one at which all was synced, and then at the end.
pub fn add_moments(
    alloc: Global,
    fs: &Untold,
    begun: u64,
    outcome: &mut Outcome,
) -> Result<Vec<u8>, Stop> {
    let end = fs.disk.moments();
    for moment in begun..end {
        let synced = if moment < fs.barrier {
            begun
        } else {
            fs.barrier
        };
        let calls = moment.saturating_sub(synced);
        add_moment(alloc, &fs.disk, moment, calls, outcome)?;
    }
    let before = outcome.told();
    outcome.clear();
    let calls = end.saturating_sub(fs.barrier);
    add_moment(alloc, &fs.disk, end, calls, outcome)?;
    before_and_after(alloc, before, outcome.told())
}

/// The list that a crash leaves before the last call, where each name has its oldest value, and where each has its last.
pub fn unsynced(alloc: Global, disk: &MemFs) -> Result<Vec<u8>, Stop> {
    let moment = disk.moments().saturating_sub(1);
    let oldest = vec![in alloc; 0]?;
    let old = left_by(alloc, disk, moment, oldest)?;
    let new = left_by(alloc, disk, moment, Vec::new(alloc))?;
    let mut told = old;
    told.extend_from_slice(b" or ")?;
    told.extend_from_slice(&new)?;
    Ok(told)
}
