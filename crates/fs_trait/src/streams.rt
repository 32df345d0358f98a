ghost use Rattle.std.specs.Prelude.{◌≡◌, ◌++◌, ◌≤◌, ◌<◌, ℕ, List, [], length, take, drop, Option, Some, OnErr, IfOk};
ghost use Rattle.fs_trait.specs.Count.{Rose};
ghost use Rattle.fs_trait.specs.Streams.{Takes, Puts};

/// Why nothing was read: the source failed, and its count of faults rose.
#[derive(Clone, Copy, Debug, PartialEq, Eq)]
pub enum SourceErr {
    Failed,
}

/// Where input comes from.
pub trait Source {
    /// The bytes that are left, where they are told.
    ghost left: { Self → Option (List ℕ) };

    /// How many calls failed.
    ghost faults: { Self → ℕ };

    /// Fills a front of the slice with the next bytes, and answers its length. 0 at a slice that isn't empty is
    /// the end of input.
    fn take(&mut self, into: &mut [u8]) -> Result<usize, SourceErr>
        ensures bound { IfOk result (λ n. n ≤ length into.new) }
        ensures effect { (b : List ℕ) → left self.old ≡ Some b → Takes b into.new result (left self.new) }
        ensures later { faults self.old ≤ faults self.new }
        ensures failed { OnErr result (Rose (faults self.old) (faults self.new)) };

    /// The number of failed calls so far, which stops at its last value.
    fn faults(&self) -> u64
        ensures { result ≡ faults self.now };
}

/// Why nothing was written: the sink failed, and its count of faults rose.
#[derive(Clone, Copy, Debug, PartialEq, Eq)]
pub enum SinkErr {
    Failed,
}

/// Where output goes.
pub trait Sink {
    /// The bytes that it took, where they are told.
    ghost taken: { Self → Option (List ℕ) };

    /// How many calls failed, or took nothing.
    ghost faults: { Self → ℕ };

    /// Takes a front of the bytes, and answers its length. Where that is 0 of bytes that aren't none, the count
    /// of faults rose.
    fn put(&mut self, bytes: &[u8]) -> Result<usize, SinkErr>
        ensures bound { IfOk result (λ n. n ≤ length bytes.now) }
        ensures effect { (b : List ℕ) → taken self.old ≡ Some b → Puts b bytes.now result (taken self.new) }
        ensures later { faults self.old ≤ faults self.new }
        ensures failed { OnErr result (Rose (faults self.old) (faults self.new)) }
        ensures nothing { IfOk result (λ n. n ≡ 0 → 0 < length bytes.now → Rose (faults self.old) (faults self.new)) };

    /// The number of such calls so far, which stops at its last value.
    fn faults(&self) -> u64
        ensures { result ≡ faults self.now };
}
