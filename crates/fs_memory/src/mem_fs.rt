ghost use Rattle.std.specs.Prelude.{◌≤◌, length};
ghost use Rattle.memory_record.specs.Changes.{SoundSince};

use crate::plan::FailAt;
use memory_record::Past;
use places::Pool;
use std::alloc::Global;

/// A file system in memory, which tells its view.
#[derive(Drop)]
pub struct MemFs {
    pub(crate) alloc: Global,
    pub(crate) past: Past,
    // how many changes there were when the clock was 0
    pub(crate) base: usize,
    pub(crate) places: Pool,
    // a `rename` takes one of each pool
    pub(crate) targets: Pool,
    pub(crate) plan: Vec<FailAt>,
    pub(crate) calls: u128,
    pub(crate) faults: u64,
    ghost begun: { base ≤ length past.changes.items },
    ghost sound: { SoundSince base past.changes.items },
}
