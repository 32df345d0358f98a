//! Sources and sinks.
use crate::meta::add_word;
use fs_host::{StdSink, StdSource};
use fs_memory::{MemSink, MemSource};
use fs_trait::{Sink, Source, SourceErr};
use ost_types::Bytes;
use sheet::{Bench, Fields, Stop, bytes_of};
use std::alloc::Global;
use std::io;
use std::io::{ErrorKind, Read};

// A reader that is interrupted once, gives some bytes, and then fails.
#[derive(Drop)]
struct Broken {
    calls: u8,
}

impl Read for Broken {
    fn read(&mut self, buf: &mut [u8]) -> io::Result<usize> {
        self.calls = self.calls.saturating_add(1);
        match self.calls {
            1 => Err(io::Error::from(ErrorKind::Interrupted)),
            2 => Ok(buf.len().min(2)),
            _ => Err(io::Error::from(ErrorKind::BrokenPipe)),
        }
    }
}

/// The machine, whose output is one of the sinks.
#[derive(Drop)]
pub struct StreamBench {
    rt: HostRuntime,
}

impl StreamBench {
    pub fn new(rt: HostRuntime) -> StreamBench {
        StreamBench { rt }
    }
}

impl Bench for StreamBench {
    fn answer(&mut self, name: &str, fields: Fields) -> Result<Vec<u8>, Stop> {
        let mut fields = fields;
        match name {
            "source" => take_from_memory(&mut fields),
            "reader" => take(&mut StdSource::new(b"abcdef".as_slice()), &mut fields),
            "broken_reader" => take(&mut StdSource::new(Broken { calls: 0 }), &mut fields),
            "sink" => put_into_memory(&mut fields),
            "output" => self.put_into_output(&mut fields),
            _ => Err(Stop::Unknown),
        }
    }
}

impl StreamBench {
    fn put_into_output(&self, fields: &mut Fields) -> Result<Vec<u8>, Stop> {
        let mut sink = StdSink::new(self.rt.clone()?);
        put(&mut sink, fields)
    }
}

// Bytes, and which call of it fails.
fn take_from_memory(fields: &mut Fields) -> Result<Vec<u8>, Stop> {
    let bytes = Bytes::from_vec(fields.bytes()?);
    let fail = vec![in fields.alloc(); fields.number()?]?;
    take(&mut MemSource::new(bytes, fail), fields)
}

// How many bytes are asked for, and how often. Tells of each time how many came and what stands in the room for them.
fn take<S: Source>(source: &mut S, fields: &mut Fields) -> Result<Vec<u8>, Stop> {
    let mut into = room(fields)?;
    let times = fields.small()?;
    let mut told = taken(source, &mut into, times, fields.alloc())?;
    add_faults(fields.alloc(), &mut told, source.faults())?;
    Ok(told)
}

fn room(fields: &mut Fields) -> Result<Vec<u8>, Stop> {
    let size = fields.small()?;
    let mut into = Vec::new(fields.alloc());
    for _ in 0..size {
        into.push(0u8)?;
    }
    Ok(into)
}

fn taken<S: Source>(
    source: &mut S,
    into: &mut [u8],
    times: u32,
    alloc: Global,
) -> Result<Vec<u8>, Stop> {
    let mut told = Vec::new(alloc);
    for _ in 0..times {
        let count = source.take(into);
        add_taken(alloc, &mut told, count, into)?;
    }
    Ok(told)
}

fn add_taken(
    alloc: Global,
    told: &mut Vec<u8>,
    count: Result<usize, SourceErr>,
    into: &[u8],
) -> Result<(), Stop> {
    let Ok(count) = count else {
        return add_failed(told);
    };
    add_number(alloc, told, count as u64)?;
    told.extend_from_slice(into)?;
    told.push(b' ')?;
    Ok(())
}

// How many bytes it takes, and which call of it fails.
fn put_into_memory(fields: &mut Fields) -> Result<Vec<u8>, Stop> {
    let mut sink = memory_sink(fields)?;
    let mut told = put(&mut sink, fields)?;
    add_word(&mut told, sink.bytes())?;
    Ok(told)
}

fn memory_sink(fields: &mut Fields) -> Result<MemSink, Stop> {
    let room = fields.small()? as usize;
    let fail = vec![in fields.alloc(); fields.number()?]?;
    Ok(MemSink::new(fields.alloc(), room, fail)?)
}

// Puts each field, and tells how many bytes of it were taken.
fn put<K: Sink>(sink: &mut K, fields: &mut Fields) -> Result<Vec<u8>, Stop> {
    let alloc = fields.alloc();
    let words = fields.others().ok_or(Stop::Unknown)?;
    let mut told = Vec::new(alloc);
    for word in words.split(' ') {
        put_one(sink, alloc, &mut told, word)?;
    }
    add_faults(alloc, &mut told, sink.faults())?;
    Ok(told)
}

fn put_one<K: Sink>(
    sink: &mut K,
    alloc: Global,
    told: &mut Vec<u8>,
    word: &str,
) -> Result<(), Stop> {
    let bytes = bytes_of(alloc, word)?;
    match sink.put(&bytes) {
        Ok(count) => add_number(alloc, told, count as u64),
        Err(_) => add_failed(told),
    }
}

fn add_failed(told: &mut Vec<u8>) -> Result<(), Stop> {
    told.extend_from_slice(b"failed ")?;
    Ok(())
}

fn add_number(alloc: Global, told: &mut Vec<u8>, number: u64) -> Result<(), Stop> {
    let text = format!(in alloc; "{number} ")?;
    told.extend_from_slice(text.as_bytes())?;
    Ok(())
}

fn add_faults(alloc: Global, told: &mut Vec<u8>, faults: u64) -> Result<(), Stop> {
    let text = format!(in alloc; "faults {faults}")?;
    told.extend_from_slice(text.as_bytes())?;
    Ok(())
}
