ghost use Rattle.std.specs.Prelude.{◌≡◌, ◌<◌, ◌+◌, ◌^◌};
ghost use Rattle.ost_types.specs.Mode.{IsFileMode};
ghost use Rattle.file_copy.specs.Copying.{begun, left};

mod steps;

use ost_types::{FsPath, Meta};
use staging::Phase;
use std::marker::Model;

/// What file is to be made, where, and whose bytes it gets.
#[derive(Drop, Debug)]
pub struct CopyPlan {
    pub from: FsPath,
    /// Where the copy is staged. Nobody else uses this path.
    pub stage: FsPath,
    pub meta: Meta,
}

/// The task that copies a regular file to a new one, a piece at a time: it is made, filled with the bytes of the other, and synced.
/// Whoever stages it shows it elsewhere then.
#[derive(Drop, Debug)]
pub struct FileCopy {
    plan: CopyPlan,
    phase: Phase,
    // the number of the bytes, once it is known
    size: u64,
    // how many of them are staged
    written: u64,
}

impl Model for FileCopy {
    ghost use Rattle.file_copy.specs.Copying.{Copying, IsMade};

    ghost Value = { Copying };

    ghost view = { λ a. record { from = a.plan.from; stage = a.plan.stage; meta = a.plan.meta; phase = a.phase; size = a.size; written = a.written } };

    ghost invariant = { λ a. IsMade (record { from = a.plan.from; stage = a.plan.stage; meta = a.plan.meta; phase = a.phase; size = a.size; written = a.written }) };
}

impl FileCopy {
    pub fn new(plan: CopyPlan) -> FileCopy
        requires { IsFileMode plan.meta.mode }
        ensures { result ≡ begun plan.from plan.stage plan.meta }
    {
        FileCopy {
            plan,
            phase: Phase::Clear,
            size: 0,
            written: 0,
        }
    }

    /// At most so many steps are left; each byte that isn't staged counts as one.
    pub fn left(&self) -> u128
        ensures value { result ≡ left self.now }
        ensures small { result < 2 ^ 64 + 4 }
    {
        match self.phase {
            Phase::Clear => 4 + u64::MAX as u128,
            Phase::Create => 3 + u64::MAX as u128,
            Phase::Append => 2 + (self.size - self.written) as u128,
            Phase::SyncFile => 1,
            Phase::Ended => 0,
        }
    }

    /// What the next step does.
    pub fn phase(&self) -> Phase
        ensures { result ≡ self.now.phase }
    {
        self.phase
    }

    /// Where the copy is staged.
    pub fn stage(&self) -> &FsPath
        ensures { result.now ≡ self.now.stage }
    {
        &self.plan.stage
    }
}
