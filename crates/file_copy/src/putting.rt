ghost use Rattle.std.specs.Prelude.{◌≡◌, ◌<◌, ◌+◌, ◌^◌, IfOk};
ghost use Rattle.ost_types.specs.Mode.{IsFileMode};
ghost use Rattle.file_copy.specs.Putting.{begun, left};

mod steps;

use crate::comparing::FileCompare;
use crate::copying::{CopyPlan, FileCopy};
use ost_types::{FsPath, NoMemory, TryCopy};
use std::marker::Model;

/// What the next step does.
#[derive(Clone, Copy, Debug, PartialEq, Eq)]
pub enum PutPhase {
    /// Compares what stands at the path.
    Compare,
    /// Copies to the staging path.
    Copy,
    /// Renames the copy over what stands at the path.
    Replace,
    /// Nothing: what stands at the path has the bytes.
    Ended,
}

/// The task that puts a copy of a regular file at a path, a step at a time. A regular file that has its bytes stays there, whatever
/// its attributes. Any other leaf is replaced in one call by a copy that was staged and synced, so that a crash at any moment leaves
/// there what was there, or the whole copy. That it outlasts a crash is for a later sync.
#[derive(Drop, Debug)]
pub struct PutCopy {
    at: FsPath,
    comparing: FileCompare,
    copying: FileCopy,
    phase: PutPhase,
}

impl Model for PutCopy {
    ghost use Rattle.file_copy.specs.Putting.{Putting, IsMade};

    ghost Value = { Putting };

    ghost view = { λ a. record { at = a.at; comparing = a.comparing; copying = a.copying; phase = a.phase } };

    ghost invariant = { λ a. IsMade (record { at = a.at; comparing = a.comparing; copying = a.copying; phase = a.phase }) };
}

impl PutCopy {
    /// Puts the copy that is planned at a path.
    pub fn new(plan: CopyPlan, at: FsPath) -> Result<PutCopy, NoMemory>
        requires { IsFileMode plan.meta.mode }
        ensures { IfOk result (λ t. t ≡ begun plan.from plan.stage at plan.meta) }
    {
        let comparing = FileCompare::new(at.copy()?, plan.from.copy()?);
        Ok(PutCopy {
            at,
            comparing,
            copying: FileCopy::new(plan),
            phase: PutPhase::Compare,
        })
    }

    /// At most so many steps are left.
    pub fn left(&self) -> u128
        ensures value { result ≡ left self.now }
        ensures small { result < 2 ^ 65 + 7 }
    {
        match self.phase {
            PutPhase::Compare => self.comparing.left() + self.copying.left() + 3,
            PutPhase::Copy => self.copying.left() + 2,
            PutPhase::Replace => 1,
            PutPhase::Ended => 0,
        }
    }

    /// What the next step does.
    pub fn phase(&self) -> PutPhase
        ensures { result ≡ self.now.phase }
    {
        self.phase
    }
}
