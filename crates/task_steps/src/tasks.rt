//! All tasks that are stepped alone.
use crate::bench::Bench;
use crate::deployments::step_deployments;
use crate::disk::prepare;
use crate::edits::edit_etc;
use crate::files::{put_files, remove_folder};
use crate::prunes::prune;
use crate::puts::{put_all, read_tree, walk_tree};
use crate::refs::change_refs;
use crate::report::Report;
use crate::stop::Stop;
use crate::swaps::swap_lists;
use counted_files::Tally;
use fs_trait::Fs;
use ost_types::Csum;
use std::alloc::Global;

/// Steps all tasks, each on the disk that those before it left.
pub fn step_tasks(alloc: Global) -> Result<Report, Stop> {
    let prepared = prepare(alloc)?;
    let tally = Tally::new();
    let mut bench = Bench::new(alloc, prepared.disk, &tally);
    let ended = step_all(&mut bench, prepared.commit);
    bench.ended(ended)
}

fn step_all<F: Fs>(bench: &mut Bench<F>, commit: Csum) -> Result<(), Stop> {
    bench.make_folder(b"/ostree/repo/refs")?;
    bench.make_folder(b"/ostree/repo/refs/heads")?;
    bench.make_folder(b"/ostree/repo/tmp")?;
    put_all(bench)?;
    read_tree(bench, commit)?;
    walk_tree(bench, commit)?;
    change_refs(bench)?;
    put_files(bench)?;
    remove_folder(bench)?;
    swap_lists(bench)?;
    prune(bench, commit)?;
    step_deployments(bench)?;
    edit_etc(bench)
}
