//! Syncs of several young files at once, on a machine that has threads.
use crate::share::Share;
use crate::young::YoungFile;
use crate::{Syncer, Syncs};
use std::thread;
use std::thread::Threads;

// No more threads are started.
const MOST_THREADS: usize = 64;

/// Has each share sync its files in a thread of its own: a disk that takes many syncs in one write is waited for once.
pub fn sync_at_once<R: Syncs + Threads + Sync>(rt: &R, files: &[YoungFile], shares: &mut [Share]) {
    thread::for_each_mut(
        rt,
        shares,
        MOST_THREADS,
        &|_, share| {
            share.sync(rt, files);
        },
    );
}

/// All shares at once. Only a `main` is given threads, so a program makes it there, of `sync_at_once`.
#[derive(Drop)]
pub struct AtOnce {
    at_once: Box<dyn Fn(&[YoungFile], &mut [Share])>,
    ghost ready: { IsAlwaysCallable at_once },
}

impl AtOnce {
    pub fn new(at_once: Box<dyn Fn(&[YoungFile], &mut [Share])>) -> AtOnce
        requires { IsAlwaysCallable at_once }
    {
        AtOnce { at_once }
    }
}

impl Syncer for AtOnce {
    fn sync(&self, files: &[YoungFile], shares: &mut [Share]) {
        (self.at_once)(files, shares);
    }
}
