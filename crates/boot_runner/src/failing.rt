//! Swaps in which a call fails.
use crate::crashes::{add_each, add_left};
use crate::listing::listing;
use crate::members::items_of;
use crate::outcome::{Outcome, before_and_after};
use crate::swaps::swap_to;
use crate::untold::Untold;
use fs_memory::{Choice, FailAt, MemFs};
use fs_trait::{Fs, FsErr};
use sheet::Stop;
use std::alloc::Global;

/// The disk as a crash leaves it that takes each last value: its calls are numbered from 1.
pub fn fresh(alloc: Global, disk: &MemFs) -> Result<Untold, Stop> {
    let choice = Choice {
        picks: Vec::new(alloc),
        fill: 0,
    };
    Ok(Untold::new(disk.image(disk.moments(), &choice)?))
}

/// What is left of swaps to this list of which each call fails in turn, before its effect and after, and then of one of which none fails.
pub fn add_failing(
    alloc: Global,
    disk: &MemFs,
    list: &str,
    outcome: &mut Outcome,
) -> Result<Vec<u8>, Stop> {
    for call in 1..2000u64 {
        let undone = FailAt { call, done: false };
        if !fails_at(alloc, disk, list, undone, outcome)? {
            return add_last(alloc, disk, list, outcome);
        }
        let done = FailAt { call, done: true };
        fails_at(alloc, disk, list, done, outcome)?;
    }
    Err(Stop::Unknown)
}

// What was seen so far, and then what a swap leaves of which no call fails.
fn add_last(
    alloc: Global,
    disk: &MemFs,
    list: &str,
    outcome: &mut Outcome,
) -> Result<Vec<u8>, Stop> {
    let before = outcome.told();
    outcome.clear();
    add_whole(alloc, disk, list, outcome)?;
    before_and_after(alloc, before, outcome.told())
}

// Whether there was such a call. The swap must tell that it failed, and what a crash then leaves is seen, and what stands there.
fn fails_at(
    alloc: Global,
    disk: &MemFs,
    list: &str,
    plan: FailAt,
    outcome: &mut Outcome,
) -> Result<bool, Stop> {
    let mut fs = fresh(alloc, disk)?;
    fs.disk.fail_at(vec![in alloc; plan]?);
    let answer = swap_to_list(alloc, &mut fs, list)?;
    if fs.disk.faults() == 0 {
        return Ok(false);
    }
    if !is_failed(&answer) {
        outcome.add_other();
    }
    add_shown(alloc, &mut fs.disk, outcome)?;
    Ok(true)
}

fn swap_to_list(alloc: Global, fs: &mut Untold, list: &str) -> Result<Result<(), FsErr>, Stop> {
    let items = items_of(alloc, list)?;
    swap_to(alloc, fs, items)
}

// What stands there, and what a crash leaves.
fn add_shown(alloc: Global, disk: &mut MemFs, outcome: &mut Outcome) -> Result<(), Stop> {
    let shown = listing(alloc, disk)?;
    outcome.add(&shown);
    let moment = disk.moments();
    add_each(alloc, disk, moment, 3, outcome)
}

fn is_failed(answer: &Result<(), FsErr>) -> bool {
    match answer {
        Err(FsErr::Failed) => true,
        _ => false,
    }
}

fn add_whole(alloc: Global, disk: &MemFs, list: &str, outcome: &mut Outcome) -> Result<(), Stop> {
    let mut fs = fresh(alloc, disk)?;
    let answer = swap_to_list(alloc, &mut fs, list)?;
    if answer.is_err() {
        outcome.add_other();
    }
    let moment = fs.disk.moments();
    add_left(alloc, &fs.disk, moment, Vec::new(alloc), outcome)?;
    add_each(alloc, &fs.disk, moment, 3, outcome)
}
