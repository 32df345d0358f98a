ghost use Rattle.std.specs.Prelude.{◌≡◌, ◌≤◌, ◌<◌, ◌+◌, ◌^◌, length};
ghost use Rattle.ost_types.specs.Mode.{IsFileMode};
ghost use Rattle.staging.specs.declared.phase.Phase.TheVariants as phase;
ghost use Rattle.staging.specs.Draft.{Draft, left};

mod steps;

use crate::Phase;
use ost_types::{Bytes, FsPath, Meta};
use std::marker::Model;

/// What file is to be made, and where.
#[derive(Drop, Debug)]
pub struct Plan {
    /// Where the file is staged. Nobody else uses this path.
    pub stage: FsPath,
    pub meta: Meta,
    pub bytes: Bytes,
}

/// The task that stages one file, a step at a time.
#[derive(Drop, Debug)]
pub struct Staging {
    plan: Plan,
    phase: Phase,
    // how many of the bytes are staged
    written: usize,
}

impl Model for Staging {
    ghost use Rattle.std.specs.Prelude.{◌≤◌, length};
    ghost use Rattle.ost_types.specs.Mode.{IsFileMode};
    ghost use Rattle.staging.specs.Draft.{Draft};

    ghost Value = { Draft };

    ghost view = { λ a. record { stage = a.plan.stage; meta = a.plan.meta; bytes = a.plan.bytes; phase = a.phase; written = a.written } };

    ghost invariant = { λ a. IsFileMode a.plan.meta.mode × (a.written ≤ length a.plan.bytes) };
}

impl Staging {
    pub fn new(plan: Plan) -> Staging
        requires { IsFileMode plan.meta.mode }
        ensures { result ≡ record { stage = plan.stage; meta = plan.meta; bytes = plan.bytes; phase = phase.Clear; written = 0 } }
    {
        Staging {
            plan,
            phase: Phase::Clear,
            written: 0,
        }
    }

    /// The same where nothing stands at the staging path.
    pub fn cleared(plan: Plan) -> Staging
        requires { IsFileMode plan.meta.mode }
        ensures { result ≡ record { stage = plan.stage; meta = plan.meta; bytes = plan.bytes; phase = phase.Create; written = 0 } }
    {
        Staging {
            plan,
            phase: Phase::Create,
            written: 0,
        }
    }

    /// At most so many steps are left; each byte that isn't staged counts as one.
    pub fn left(&self) -> u128
        ensures value { result ≡ left self.now }
        ensures small { result < 2 ^ 63 + 4 }
    {
        let len = self.plan.bytes.as_slice().len();
        match self.phase {
            Phase::Clear => 4 + len as u128,
            Phase::Create => 3 + len as u128,
            Phase::Append => 2 + (len - self.written) as u128,
            Phase::SyncFile => 1,
            Phase::Ended => 0,
        }
    }

    /// What the next step does.
    pub fn phase(&self) -> Phase
        ensures { result ≡ self.now.phase }
    {
        self.phase
    }

    /// Where the file is staged.
    pub fn stage(&self) -> &FsPath
        ensures { result.now ≡ self.now.stage }
    {
        &self.plan.stage
    }
}
