//! The parts of a prune.
use crate::bench::Bench;
use crate::stop::Stop;
use fs_trait::Fs;
use ost_types::{Csum, Kind, ObjName};
use prune_mark::Marking;
use prune_sweep::{Listing, plan_sweep};

/// What this commit doesn't lead to goes, and then all that is left.
pub fn prune<F: Fs>(bench: &mut Bench<F>, commit: Csum) -> Result<(), Stop> {
    let root = ObjName {
        csum: commit,
        kind: Kind::Commit,
    };
    prune_to(bench, &[root])?;
    bench.make_file(MARK)?;
    prune_to(bench, &[])
}

// The mark of a commit that isn't there.
const MARK: &[u8] =
    b"/ostree/repo/state/0101010101010101010101010101010101010101010101010101010101010101.commitpartial";

fn prune_to<F: Fs>(bench: &mut Bench<F>, roots: &[ObjName]) -> Result<(), Stop> {
    let names = list(bench)?;
    let marking = mark(bench, names, roots)?;
    sweep(bench, &marking)
}

fn list<F: Fs>(bench: &mut Bench<F>) -> Result<Vec<ObjName>, Stop> {
    let mut task = Listing::new(bench.alloc);
    bench.measure("the objects that a prune lists", &mut task)?;
    Ok(task.into_names())
}

fn mark<F: Fs>(
    bench: &mut Bench<F>,
    names: Vec<ObjName>,
    roots: &[ObjName],
) -> Result<Marking, Stop> {
    let mut task = Marking::new(bench.alloc, names, roots, 0)?;
    bench.measure("the marks of what a prune keeps", &mut task)?;
    Ok(task)
}

fn sweep<F: Fs>(bench: &mut Bench<F>, marking: &Marking) -> Result<(), Stop> {
    let mut task = plan_sweep(bench.alloc, &mut bench.fs, marking, &[])?;
    bench.measure("the sweep of what goes", &mut task)
}
