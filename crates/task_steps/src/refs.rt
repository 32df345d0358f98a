//! Refs that are set and removed.
use crate::bench::Bench;
use crate::stop::Stop;
use fs_trait::Fs;
use ost_types::Csum;
use ref_store::RefTask;
use repo_layout::RefName;
use std::alloc::Global;

fn name(alloc: Global, text: &[u8]) -> Result<RefName, Stop> {
    RefName::parse(alloc, text)?.ok_or(Stop::Unmade)
}

fn one() -> Csum {
    Csum::from_bytes([1; 32])
}

fn other() -> Csum {
    Csum::from_bytes([2; 32])
}

fn make<F: Fs>(bench: &mut Bench<F>) -> Result<(), Stop> {
    let name = name(bench.alloc, b"a/b/c")?;
    let mut task = RefTask::set(bench.alloc, 0, name, None, one());
    bench.measure("a ref in new folders", &mut task)
}

fn change<F: Fs>(bench: &mut Bench<F>) -> Result<(), Stop> {
    let name = name(bench.alloc, b"a/b/c")?;
    let mut task = RefTask::set(bench.alloc, 0, name, Some(one()), other());
    bench.measure("a ref that changes", &mut task)
}

fn remove<F: Fs>(bench: &mut Bench<F>) -> Result<(), Stop> {
    let name = name(bench.alloc, b"a/b/c")?;
    let mut task = RefTask::remove(bench.alloc, 0, name, other());
    bench.measure("a ref that goes", &mut task)
}

fn clear<F: Fs>(bench: &mut Bench<F>) -> Result<(), Stop> {
    let name = name(bench.alloc, b"a")?;
    let mut task = RefTask::set(bench.alloc, 0, name, None, one());
    bench.measure("a ref in the place of empty folders", &mut task)
}

/// What is done to refs, one after the other.
pub fn change_refs<F: Fs>(bench: &mut Bench<F>) -> Result<(), Stop> {
    make(bench)?;
    change(bench)?;
    remove(bench)?;
    clear(bench)
}
