//! Syncs of young files by threads, of which one fails.
use host_files::{Share, Syncs, YoungFile, sync_at_once};
use ost_types::NoMemory;
use std::alloc::Global;
use std::thread::Threads;

const FILES: u32 = 100;

// A machine on which the sync of one young file fails.
#[derive(Drop)]
struct Loses<'a, R> {
    rt: &'a R,
    text: &'a str,
}

impl<R: Threads> Threads for Loses<'_, R> {}

impl<R> Syncs for Loses<'_, R> {
    fn sync_at(&self, text: &str) -> bool {
        text != self.text
    }
}

/// How many shares of a hundred young files aren't synced, where the sync of the file at this text fails.
pub fn failed_shares<R: Threads + Sync>(
    rt: &R,
    alloc: Global,
    text: &str,
) -> Result<usize, NoMemory> {
    let mut files = Vec::new(alloc);
    for _ in 0..FILES {
        files.push(YoungFile {
            names: 1,
            is_link: false,
        })?;
    }
    let mut shares = Share::all(alloc)?;
    sync_at_once(&Loses { rt, text }, &files, &mut shares);
    Ok(shares.iter().filter(|share| !share.is_synced()).count())
}
