//! The lanes that words ask for, on a disk whose calls are counted.
ghost use Rattle.std.specs.Prelude.{◌≡◌, ◌≤◌, All, IfOk, Ok, length};
ghost use Rattle.commands.specs.Family.{means};
ghost use Rattle.commands.specs.Words.{words_of};
ghost use Rattle.script_reader.specs.Script.{command_limit, lane_limit};
ghost use Rattle.script_trees.specs.Fit.{AreFit, IsWide};
ghost use Rattle.top_call.specs.Words.{commands_of};

use crate::system::run_counted;
use commands::lanes_of;
use counted_files::{Counted, Most, Tally};
use fs_memory::MemSource;
use fs_trait::{Fs, Source};
use fs_watch::{Watch, Watched};
use ost_types::{Bytes, Limits};
use script_reader::Lane;
use std::alloc::Global;
use std::thread::Threads;
use sys_open::{Opened, adopt};
use task_steps::Stop;
use top_call::asked_lanes;

/// Runs the lanes that the words ask for, in turn, and tells the most calls of an act, with the disk that they leave.
pub fn run_words<R: Threads + Sync, F: Fs>(
    threads: &R,
    alloc: Global,
    fs: F,
    words: &[String],
    input: Bytes,
    limits: Limits,
) -> Result<(F, Most), Stop>
    requires wide { IsWide limits }
{
    let mut source = MemSource::new(input, Vec::new(alloc));
    let lanes = lanes_asked(alloc, words, &mut source)?;
    run_on(threads, alloc, fs, lanes, limits)
}

fn lanes_asked<S: Source>(
    alloc: Global,
    words: &[String],
    source: &mut S,
) -> Result<Vec<Lane>, Stop>
    ensures { IfOk result (λ lanes. AreFit (commands_of lanes.items)) }
{
    Ok(made(asked_lanes(alloc, words, source))?.lanes)
}

// What was made. Why it couldn't be is no matter here.
fn made<T, E: Drop>(answer: Result<T, E>) -> Result<T, Stop>
    ensures { IfOk result (λ value. answer ≡ Ok value) }
{
    match answer {
        Ok(value) => Ok(value),
        Err(_) => Err(Stop::Unmade),
    }
}

fn run_on<R: Threads + Sync, F: Fs>(
    threads: &R,
    alloc: Global,
    fs: F,
    lanes: Vec<Lane>,
    limits: Limits,
) -> Result<(F, Most), Stop>
    requires wide { IsWide limits }
    requires fit { AreFit (commands_of lanes.items) }
{
    let tally = Tally::new();
    let fs = Watched::new(Counted::new(fs, &tally));
    let (watched, most) = run_lanes(threads, alloc, fs, lanes, limits, &tally)?;
    Ok((watched.into_inner().into_inner(), most))
}

fn run_lanes<R: Threads + Sync, F: Watch>(
    threads: &R,
    alloc: Global,
    fs: F,
    lanes: Vec<Lane>,
    limits: Limits,
    tally: &Tally,
) -> Result<(F, Most), Stop>
    requires wide { IsWide limits }
    requires fit { AreFit (commands_of lanes.items) }
{
    let opened = adopted(threads, alloc, fs, limits)?;
    run_opened(alloc, opened, lanes, tally)
}

fn adopted<R: Threads + Sync, F: Fs>(
    threads: &R,
    alloc: Global,
    fs: F,
    limits: Limits,
) -> Result<Opened<F>, Stop>
    ensures { IfOk result (λ opened. opened.limits ≡ limits) }
{
    made(adopt(threads, alloc, fs, limits))
}

fn run_opened<F: Watch>(
    alloc: Global,
    opened: Opened<F>,
    lanes: Vec<Lane>,
    tally: &Tally,
) -> Result<(F, Most), Stop>
    requires few { length lanes.items ≤ lane_limit }
    requires short { All (λ lane. length lane.commands.items ≤ command_limit) lanes.items }
    requires fit { All (λ lane. All (λ c. means.fit opened.limits (words_of c)) lane.commands.items) lanes.items }
{
    match lanes_of(alloc, lanes) {
        Ok(lanes) => run_counted(alloc, opened, lanes, tally),
        Err(_) => Err(Stop::NoMemory),
    }
}
