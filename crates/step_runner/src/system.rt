//! Acts of a system.
ghost use Rattle.std.specs.Prelude.{◌≤◌, length};
ghost use Rattle.lane_system.specs.Kept.{AreIdle};

use command::Command;
use counted_files::{Most, Tally};
use fs_watch::Watch;
use lane_system::{Ask, Lane, Parts, System};
use std::alloc::Global;
use sys_open::Opened;
use task_steps::Stop;

/// More rounds of acts than any lanes here take.
const ROUNDS: u32 = 100_000;

/// Runs all lanes in turn, and tells the most calls of an act, with the file system that they leave. The calls of the opening are
/// those of no act.
pub fn run_counted<F: Watch, C: Command>(
    alloc: Global,
    opened: Opened<F>,
    lanes: Vec<Lane<C, C::Words, C::Answer>>,
    tally: &Tally,
) -> Result<(F, Most), Stop>
    requires few { length lanes.items ≤ 8 }
    requires idle { AreIdle C.means opened.limits lanes.items }
{
    let system = begun(System::new(alloc, opened, lanes))?;
    run_begun(system, tally)
}

fn begun<T, E: Drop>(made: Result<T, E>) -> Result<T, Stop> {
    match made {
        Ok(system) => Ok(system),
        Err(_) => Err(Stop::NoMemory),
    }
}

fn run_begun<F: Watch, C: Command>(system: System<F, C>, tally: &Tally) -> Result<(F, Most), Stop> {
    let mut system = system;
    let _opening = tally.take();
    let counted = rounds(&mut system, tally);
    let fs = fs_of(system);
    match counted {
        Some(most) => Ok((fs, most)),
        None => Err(Stop::Endless),
    }
}

fn fs_of<F: Watch, C: Command>(system: System<F, C>) -> F {
    let Parts {
        fs,
        history,
        pending,
        lanes,
    } = system.into_parts();
    drop(history);
    drop(pending);
    drop(lanes);
    fs
}

// None where they don't end.
fn rounds<F: Watch, C: Command>(system: &mut System<F, C>, tally: &Tally) -> Option<Most> {
    let mut most = Most::none();
    for _ in 0..ROUNDS {
        let before = most.steps;
        most = round(system, tally, most);
        if most.steps == before {
            return Some(most);
        }
    }
    None
}

// One act of each lane.
fn round<F: Watch, C: Command>(system: &mut System<F, C>, tally: &Tally, most: Most) -> Most {
    let mut most = most;
    for lane in 0..8 {
        if has_acted(system, lane) {
            most = most.with(tally.take());
        }
    }
    most
}

fn has_acted<F: Watch, C: Command>(system: &mut System<F, C>, lane: u8) -> bool {
    system.act(lane) != Ask::Ended
}
