ghost use Rattle.std.specs.Prelude.{◌≡◌, ◌≤◌, ◌<◌, ◌↔◌, ◌⊎◌, List, ℕ, [], Some, Contains, length, min, IfOk, IsErr, OnErr};
ghost use Rattle.std.specs.Vec.{vec_capacity};
ghost use Rattle.fs_trait.specs.Count.{Rose};
ghost use Rattle.fs_trait.specs.Streams.{Puts};
ghost use Rattle.fs_memory.specs.Calls.{IsNext};

use crate::calls::{is_listed, next_call, one_more};
use fs_trait::{Sink, SinkErr};
use ost_types::NoMemory;
use std::alloc::Global;

/// A sink in memory, with room for so many bytes, some of whose calls may fail.
#[derive(Drop)]
pub struct MemSink {
    bytes: Vec<u8>,
    room: usize,
    fail: Vec<u64>,
    calls: u128,
    faults: u64,
    ghost within: { length bytes.items ≤ room },
    ghost roomy: { room ≤ vec_capacity bytes },
}

impl MemSink {
    ghost use Rattle.fs_memory.specs.Streams.{taken_by, capacity_of, puts_of, failing_puts, failed_puts};

    /// An empty sink, which takes its room at once. The calls of `put` with these numbers fail and take nothing;
    /// they are numbered from 1.
    pub fn new(alloc: Global, room: usize, fail: Vec<u64>) -> Result<MemSink, NoMemory>
        ensures bytes { IfOk result (λ s. taken_by s ≡ []) }
        ensures room { IfOk result (λ s. capacity_of s ≡ room) }
        ensures fail { IfOk result (λ s. failing_puts s ≡ fail.items) }
        ensures counts { IfOk result (λ s. (puts_of s ≡ 0) × (failed_puts s ≡ 0)) }
    {
        Ok(MemSink {
            bytes: Vec::with_capacity(alloc, room)?,
            room,
            fail,
            calls: 0,
            faults: 0,
        })
    }

    /// What it took.
    pub fn bytes(&self) -> &[u8]
        ensures { result.now ≡ taken_by self.now }
    {
        &self.bytes
    }
}

impl Sink for MemSink {
    ghost use Rattle.fs_memory.specs.Streams.{taken_by, room_in, capacity_of, puts_of, failing_puts, failed_puts};

    ghost taken = { λ s. Some (taken_by s) };

    ghost faults = { λ s. failed_puts s };

    /// Takes as many bytes as still have room.
    fn put(&mut self, bytes: &[u8]) -> Result<usize, SinkErr>
        ensures bound { IfOk result (λ n. n ≤ length bytes.now) }
        ensures effect { (b : List ℕ) → Some (taken_by self.old) ≡ Some b → Puts b bytes.now result (Some (taken_by self.new)) }
        ensures later { failed_puts self.old ≤ failed_puts self.new }
        ensures failed { OnErr result (Rose (failed_puts self.old) (failed_puts self.new)) }
        ensures nothing { IfOk result (λ n. n ≡ 0 → 0 < length bytes.now → Rose (failed_puts self.old) (failed_puts self.new)) }
        ensures planned { IsErr result ↔ Contains (failing_puts self.old) (puts_of self.new) }
        ensures count { IfOk result (λ n. n ≡ min (length bytes.now) (room_in self.old)) }
        ensures number { IsNext (puts_of self.old) (puts_of self.new) }
        ensures same_faults { IfOk result (λ n. (0 < n) ⊎ (length bytes.now ≡ 0) → failed_puts self.new ≡ failed_puts self.old) }
        ensures keeps { (failing_puts self.new ≡ failing_puts self.old) × (capacity_of self.new ≡ capacity_of self.old) }
    {
        self.calls = next_call(self.calls);
        if is_listed(&self.fail, self.calls) {
            self.faults = one_more(self.faults);
            return Err(SinkErr::Failed);
        }
        let count = bytes.len().min(self.room - self.bytes.len());
        if count == 0 && !bytes.is_empty() {
            self.faults = one_more(self.faults);
        }
        match self.bytes.extend_from_slice(&bytes[..count]) {
            Ok(()) => Ok(count),
            Err(_) => unreachable!(),
        }
    }

    fn faults(&self) -> u64 {
        self.faults
    }
}
