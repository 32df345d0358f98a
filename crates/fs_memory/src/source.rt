ghost use Rattle.std.specs.Prelude.{◌≡◌, ◌≤◌, ◌↔◌, List, ℕ, Some, Contains, length, min, drop, IfOk, IsErr, OnOk, OnErr};
ghost use Rattle.fs_trait.specs.Count.{Rose};
ghost use Rattle.fs_trait.specs.Streams.{Takes};
ghost use Rattle.fs_memory.specs.Calls.{IsNext};

use crate::calls::{is_listed, next_call, one_more};
use fs_trait::{Source, SourceErr};
use ost_types::Bytes;

/// A source in memory, some of whose calls may fail.
#[derive(Drop)]
pub struct MemSource {
    bytes: Bytes,
    given: usize,
    fail: Vec<u64>,
    calls: u128,
    faults: u64,
    ghost within: { given ≤ length bytes },
}

impl MemSource {
    ghost use Rattle.fs_memory.specs.Streams.{left_in, takes_of, failing_takes, failed_takes};

    /// A source that gives these bytes. The calls of `take` with these numbers fail and give nothing;
    /// they are numbered from 1.
    pub fn new(bytes: Bytes, fail: Vec<u64>) -> MemSource
        ensures left { left_in result ≡ bytes }
        ensures fail { failing_takes result ≡ fail.items }
        ensures counts { (takes_of result ≡ 0) × (failed_takes result ≡ 0) }
    {
        MemSource {
            bytes,
            given: 0,
            fail,
            calls: 0,
            faults: 0,
        }
    }
}

impl Source for MemSource {
    ghost use Rattle.fs_memory.specs.Streams.{left_in, takes_of, failing_takes, failed_takes};

    ghost left = { λ s. Some (left_in s) };

    ghost faults = { λ s. failed_takes s };

    /// Gives as many bytes as are left and find room.
    fn take(&mut self, into: &mut [u8]) -> Result<usize, SourceErr>
        ensures bound { IfOk result (λ n. n ≤ length into.new) }
        ensures effect { (b : List ℕ) → Some (left_in self.old) ≡ Some b → Takes b into.new result (Some (left_in self.new)) }
        ensures later { failed_takes self.old ≤ failed_takes self.new }
        ensures failed { OnErr result (Rose (failed_takes self.old) (failed_takes self.new)) }
        ensures planned { IsErr result ↔ Contains (failing_takes self.old) (takes_of self.new) }
        ensures count { IfOk result (λ n. n ≡ min (length into.old) (length (left_in self.old))) }
        ensures rest { IfOk result (λ n. drop n into.new ≡ drop n into.old) }
        ensures err { OnErr result (into.new ≡ into.old) }
        ensures number { IsNext (takes_of self.old) (takes_of self.new) }
        ensures same_faults { OnOk result (failed_takes self.new ≡ failed_takes self.old) }
        ensures keeps { failing_takes self.new ≡ failing_takes self.old }
    {
        self.calls = next_call(self.calls);
        if is_listed(&self.fail, self.calls) {
            self.faults = one_more(self.faults);
            return Err(SourceErr::Failed);
        }
        let left = &self.bytes.as_slice()[self.given..];
        let count = into.len().min(left.len());
        into[..count].copy_from_slice(&left[..count]);
        self.given += count;
        Ok(count)
    }

    fn faults(&self) -> u64 {
        self.faults
    }
}
