//! One call of the program.
use crate::stop::Stop;
use case_book::Plan;
use fs_memory::{MemSink, MemSource};
use fs_trait::{Fs, Sink, Source};
use fs_watch::Watched;
use ost_types::{Bytes, Limits};
use std::alloc::Global;
use std::thread::Threads;
use top_call::{Ended, LanesEnd, TopFault, asked_lanes, ostree, output_of, run_asked, status_of};

/// What came of a call.
#[derive(Drop)]
pub struct Ran<F> {
    pub fs: F,
    pub status: u8,
    pub output: Vec<u8>,
    /// How many changes of refs last.
    pub lasting: u64,
    /// Whether a change is published, or may be, that doesn't last yet.
    pub is_pending: bool,
    /// The clock of the disk before the call.
    pub begun: u64,
}

impl<F: Fs> Ran<F> {
    /// How many changes of the disk the call made.
    pub fn changes(&self) -> u64 {
        self.fs.clock().saturating_sub(self.begun)
    }

    /// Whether a call of the disk failed.
    pub fn has_failed(&self) -> bool {
        self.fs.faults() > 0
    }
}

// The room of a sink that isn't told.
const ROOM: usize = 200_000;

/// Calls the program with these words and this input.
pub fn call_program<R: Threads + Sync, F: Fs>(
    threads: &R,
    alloc: Global,
    fs: F,
    words: &[String],
    input: Bytes,
    plan: &Plan,
) -> Result<Ran<F>, Stop> {
    let mut source = MemSource::new(input, Vec::from_slice(alloc, &plan.source)?);
    match plan.objects {
        Some(objects) => call_within(threads, alloc, fs, words, &mut source, objects),
        None => call_whole(threads, alloc, fs, words, &mut source, plan),
    }
}

// With a sink as the plan has it.
fn call_whole<R: Threads + Sync, F: Fs>(
    threads: &R,
    alloc: Global,
    fs: F,
    words: &[String],
    source: &mut MemSource,
    plan: &Plan,
) -> Result<Ran<F>, Stop> {
    let begun = fs.clock();
    let mut sink = sink_of(alloc, plan)?;
    let ended = ended_over(threads, alloc, fs, words, source, &mut sink);
    let mut ran = ran_of(alloc, ended, begun);
    ran.output.extend_from_slice(sink.bytes())?;
    Ok(ran)
}

fn sink_of(alloc: Global, plan: &Plan) -> Result<MemSink, Stop> {
    let fail = Vec::from_slice(alloc, &plan.sink)?;
    Ok(MemSink::new(alloc, plan.room.unwrap_or(ROOM), fail)?)
}

// Over any source and any sink.
fn ended_over<R: Threads + Sync, F: Fs, S: Source, K: Sink>(
    threads: &R,
    alloc: Global,
    fs: F,
    words: &[String],
    source: &mut S,
    sink: &mut K,
) -> Ended<Watched<F>> {
    ostree(threads, alloc, words, Watched::new(fs), source, sink)
}

// Without what was printed.
fn ran_of<F: Fs>(alloc: Global, ended: Ended<Watched<F>>, begun: u64) -> Ran<F> {
    Ran {
        fs: ended.fs.into_inner(),
        status: ended.status,
        output: Vec::new(alloc),
        lasting: ended.history.len() as u64,
        is_pending: ended.pending.is_some(),
        begun,
    }
}

// The parts of a call, where the repository may have no more objects than this.
fn call_within<R: Threads + Sync, F: Fs, S: Source>(
    threads: &R,
    alloc: Global,
    fs: F,
    words: &[String],
    source: &mut S,
    objects: u32,
) -> Result<Ran<F>, Stop> {
    let begun = fs.clock();
    let mut limits = Limits::standard();
    limits.objects = objects;
    match asked_lanes(alloc, words, source) {
        Ok(asked) => match run_asked(threads, alloc, Watched::new(fs), asked, limits) {
            Ok(parts) => ended_within(alloc, parts, begun),
            Err((fs, fault)) => stopped_within(alloc, fs.into_inner(), fault, begun),
        },
        Err(fault) => stopped_within(alloc, fs, fault, begun),
    }
}

fn ended_within<F: Fs>(
    alloc: Global,
    parts: LanesEnd<Watched<F>>,
    begun: u64,
) -> Result<Ran<F>, Stop> {
    let output = output_of(alloc, &None, &parts.replies)?;
    Ok(Ran {
        fs: parts.fs.into_inner(),
        status: status_of(&None, &parts.replies, false, false, false),
        output: output.into_vec(),
        lasting: parts.history.len() as u64,
        is_pending: parts.pending.is_some(),
        begun,
    })
}

fn stopped_within<F: Fs>(
    alloc: Global,
    fs: F,
    fault: TopFault,
    begun: u64,
) -> Result<Ran<F>, Stop> {
    let fault = Some(fault);
    let replies = Vec::new(alloc);
    let output = output_of(alloc, &fault, &replies)?;
    Ok(Ran {
        fs,
        status: status_of(&fault, &replies, false, false, false),
        output: output.into_vec(),
        lasting: 0,
        is_pending: false,
        begun,
    })
}
