//! The program `ostree_native`: an OSTree bare repository in the current folder, on the machine's own files.
#![tactic(auto)]

mod beside;
mod help;
mod lock;

use beside::lay_out;
use fs_host::{StdSink, StdSource};
use fs_native::NativeFs;
use fs_watch::Watched;
use help::{USAGE, VERSION};
use host_files::{AtOnce, Share, Syncer, YoungFile, sync_at_once};
use lock::hold;
use std::io::ErrorKind;
use std::process::ExitCode;
use std::thread::Threads;
use top_call::{MEMORY_LINE, TopFault, USAGE_LINE, ostree, write_all};

// Only here does the machine have threads, so what starts them is made here.
fn main(rt: HostRuntime) -> ExitCode {
    let Ok(other) = rt.clone() else {
        return ExitCode::from(3);
    };
    let Ok(threads) = rt.clone() else {
        return ExitCode::from(3);
    };
    let at_once = move |files: &[YoungFile], shares: &mut [Share]| sync_at_once(
        &other, files, shares,
    );
    match Box::new(rt.alloc(), at_once) {
        Ok(at_once) => ExitCode::from(run(rt, &threads, AtOnce::new(at_once))),
        Err(_) => ExitCode::from(3),
    }
}

fn run<R: Threads + Sync, S: Syncer>(rt: HostRuntime, threads: &R, syncer: S) -> u8 {
    let mut out = match rt.clone() {
        Ok(rt) => StdSink::new(rt),
        Err(_) => return 3,
    };
    match words_of(&rt) {
        Ok(words) => obey(rt, threads, syncer, &words, &mut out),
        Err(ErrorKind::OutOfMemory) => tell(&mut out, MEMORY_LINE, 3),
        Err(_) => {
            hint(&rt);
            tell(&mut out, USAGE_LINE, 2)
        }
    }
}

// Says on standard error where the words are told that there are. Where nobody takes it, nothing else comes of that.
fn hint(rt: &HostRuntime) {
    let _ = eprintln!(rt;
        "ostree_native: these words are no command line; `ostree_native --help` has those that are"
    );
}

// The words behind the program's name.
fn words_of(rt: &HostRuntime) -> Result<Vec<String>, ErrorKind> {
    let words = match std::env::args(rt) {
        Ok(words) => words,
        Err(e) => return Err(e.kind()),
    };
    words
        .skip(1)
        .collect(rt.alloc())
        .map_err(|_| ErrorKind::OutOfMemory)
}

fn obey<R: Threads + Sync, S: Syncer>(
    rt: HostRuntime,
    threads: &R,
    syncer: S,
    words: &[String],
    out: &mut StdSink<HostRuntime>,
) -> u8 {
    match words.first().map(|word| word.as_str()) {
        Some("--help") => tell(out, USAGE, 0),
        Some("--version") => tell(out, VERSION, 0),
        _ => work(rt, threads, syncer, words, out),
    }
}

// Obeys the words while the repository's lock is held. Where another holds it, each call of the file system fails.
fn work<R: Threads + Sync, S: Syncer>(
    rt: HostRuntime,
    threads: &R,
    syncer: S,
    words: &[String],
    out: &mut StdSink<HostRuntime>,
) -> u8 {
    let lock = hold(&rt);
    let Ok(other) = rt.clone() else {
        return tell(out, MEMORY_LINE, 3);
    };
    let fs = match &lock {
        Ok(_) => NativeFs::new(other, syncer),
        Err(_) => NativeFs::shut(other, syncer),
    };
    let Ok(fs) = fs else {
        return tell(out, MEMORY_LINE, 3);
    };
    let mut input = StdSource::new(rt.reader());
    let ended = ostree(
        threads,
        rt.alloc(),
        words,
        Watched::new(fs),
        &mut input,
        out,
    );
    if lock.is_ok() {
        lay_out(&rt);
    }
    drop(lock);
    if let Some(TopFault::Usage) = ended.fault {
        hint(&rt);
    }
    ended.status
}

// Writes a text that needs no repository.
fn tell(out: &mut StdSink<HostRuntime>, text: &[u8], status: u8) -> u8 {
    match write_all(out, text) {
        Ok(()) => status,
        Err(_) => status.max(6),
    }
}
