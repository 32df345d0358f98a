ghost use Rattle.std.specs.Prelude.{◌≡◌, ◌≤◌, ◌<◌, ◌+◌, IfOk, OnOk, IsOk};

use crate::Place;
use ost_types::{FsPath, NoMemory};
use std::alloc::Global;
use std::marker::Model;

/// Empty buffers for paths. It is seen as their number.
#[derive(Drop)]
pub struct Pool {
    alloc: Global,
    buffers: Vec<Vec<u8>>,
}

impl Model for Pool {
    ghost use Rattle.std.specs.Prelude.{ℕ, length};
    ghost use Rattle.places.specs.Roomy.{AreRoomy};

    ghost Value = { ℕ };

    ghost view = { λ a. length a.buffers.items };

    ghost invariant = { λ a. AreRoomy a.buffers.items };
}

impl Pool {
    pub fn new(alloc: Global) -> Pool
        ensures { result ≡ 0 }
    {
        Pool {
            alloc,
            buffers: Vec::new(alloc),
        }
    }

    pub fn len(&self) -> usize
        ensures { result ≡ self.now }
    {
        self.buffers.len()
    }

    /// Has at least so many.
    pub fn fill(&mut self, count: u64) -> Result<(), NoMemory>
        ensures ok { OnOk result (count ≤ self.new) }
        ensures keeps { self.old ≤ self.new }
    {
        while (self.buffers.len() as u64) < count {
            self.buffers.push(Vec::with_capacity(self.alloc, 2048)?)?;
        }
        Ok(())
    }

    /// The path as a place: of its own size where the allocator has memory, else in a buffer of the pool.
    pub fn place(&mut self, path: &FsPath) -> Result<Place, NoMemory>
        ensures ok { IfOk result (λ p. p ≡ path.now) }
        ensures took { self.old ≤ self.new + 1 }
        ensures fewer { self.new ≤ self.old }
        ensures sure { 0 < self.old → IsOk result }
    {
        match Place::fill(Vec::new(self.alloc), path.names()) {
            Ok(place) => Ok(place),
            Err(_) => match self.buffers.pop() {
                Some(buffer) => Place::fill(buffer, path.names()),
                None => Err(NoMemory),
            },
        }
    }
}
