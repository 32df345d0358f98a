//! The machine's standard streams.
ghost use Rattle.std.specs.Prelude.{◌≡◌, None};

use fs_trait::{Sink, SinkErr, Source, SourceErr};
use std::io::{Error, ErrorKind, Read};

/// Standard input, or any other reader. It tells nothing of what is left.
#[derive(Drop)]
pub struct StdSource<S: Read> {
    input: S,
    faults: u64,
}

impl<S: Read> StdSource<S> {
    ghost use Rattle.fs_host.specs.Counts.{failed_takes};

    pub fn new(input: S) -> StdSource<S>
        ensures { failed_takes result ≡ 0 }
    {
        StdSource { input, faults: 0 }
    }
}

impl<S: Read> Source for StdSource<S> {
    ghost left = { λ _. None };

    ghost faults = { λ s. s.faults };

    fn take(&mut self, into: &mut [u8]) -> Result<usize, SourceErr> {
        for _ in 0..u64::MAX {
            match self.input.read(into) {
                Ok(n) => return Ok(n),
                Err(e) if is_interrupted(&e) => {}
                Err(_) => break,
            }
        }
        self.faults = self.faults.saturating_add(1);
        Err(SourceErr::Failed)
    }

    fn faults(&self) -> u64 {
        self.faults
    }
}

/// Standard output. It tells nothing of what it took.
#[derive(Drop)]
pub struct StdSink<R: Print> {
    rt: R,
    faults: u64,
}

impl<R: Print> StdSink<R> {
    ghost use Rattle.fs_host.specs.Counts.{failed_puts};

    pub fn new(rt: R) -> StdSink<R>
        ensures { failed_puts result ≡ 0 }
    {
        StdSink { rt, faults: 0 }
    }
}

impl<R: Print> Sink for StdSink<R> {
    ghost taken = { λ _. None };

    ghost faults = { λ s. s.faults };

    fn put(&mut self, bytes: &[u8]) -> Result<usize, SinkErr> {
        for _ in 0..u64::MAX {
            match self.rt.write_some(bytes) {
                Ok(n) => {
                    if n == 0 && !bytes.is_empty() {
                        self.faults = self.faults.saturating_add(1);
                    }
                    return Ok(n);
                }
                Err(e) if is_interrupted(&e) => {}
                Err(_) => break,
            }
        }
        self.faults = self.faults.saturating_add(1);
        Err(SinkErr::Failed)
    }

    fn faults(&self) -> u64 {
        self.faults
    }
}

// A signal came before anything was read or written.
fn is_interrupted(error: &Error) -> bool {
    error.kind() == ErrorKind::Interrupted
}
