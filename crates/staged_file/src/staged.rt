ghost use Rattle.std.specs.Prelude.{◌≡◌};
ghost use Rattle.ost_types.specs.Mode.{IsFileMode};
ghost use Rattle.staged_file.specs.declared.phase.Phase.TheVariants as phase;
ghost use Rattle.staged_file.specs.Staged.{left, lock_in};

mod steps;

use crate::Phase;
use fs_trait::Need;
use ost_types::{Bytes, FsPath, Meta};
use staging::Staging;
use std::marker::Model;

/// What file is to be made, and where.
#[derive(Drop, Debug)]
pub struct Plan {
    /// Where the file is staged. Nobody else uses this path.
    pub stage: FsPath,
    /// The folder of its target.
    pub folder: FsPath,
    /// Its target: a name in that folder.
    pub at: FsPath,
    pub meta: Meta,
    pub bytes: Bytes,
    /// The lock under which the steps from the look at the target on stand.
    pub lock: Need,
}

/// The task that makes one file, a step at a time: it stages the file, syncs it, shows it at its target, and syncs the
/// target's folder. A crash at any moment leaves at the target what was there, or the whole file.
#[derive(Drop, Debug)]
pub struct StagedFile {
    // the file at its staging path
    file: Staging,
    folder: FsPath,
    at: FsPath,
    lock: Need,
    phase: Phase,
}

impl Model for StagedFile {
    ghost use Rattle.std.specs.Prelude.{◌≡◌};
    ghost use Rattle.staged_file.specs.Staged.{Staged, stage_in};

    ghost Value = { Staged };

    ghost view = { λ a. record { stage = a.file.stage; folder = a.folder; at = a.at; meta = a.file.meta; bytes = a.file.bytes; lock = a.lock; phase = a.phase; written = a.file.written } };

    ghost invariant = { λ a. a.file.phase ≡ stage_in a.phase };
}

impl StagedFile {
    pub fn new(plan: Plan) -> StagedFile
        requires { IsFileMode plan.meta.mode }
        ensures { result ≡ record { stage = plan.stage; folder = plan.folder; at = plan.at; meta = plan.meta; bytes = plan.bytes; lock = plan.lock; phase = phase.Clear; written = 0 } }
    {
        let Plan {
            stage,
            folder,
            at,
            meta,
            bytes,
            lock,
        } = plan;
        StagedFile {
            file: Staging::new(staging::Plan { stage, meta, bytes }),
            folder,
            at,
            lock,
            phase: Phase::Clear,
        }
    }

    /// The lock under which the next step must stand.
    pub fn needs(&self) -> Need
        ensures { result ≡ lock_in self.now.phase self.now }
    {
        match self.phase {
            Phase::Clear | Phase::Create | Phase::Append | Phase::SyncFile | Phase::Ended =>
                Need::Nothing,
            _ => self.lock,
        }
    }

    /// At most so many steps are left; each byte that isn't staged counts as one.
    pub fn left(&self) -> u128
        ensures { result ≡ left self.now }
    {
        match self.phase {
            Phase::Replace => 2,
            Phase::SyncFolder => 1,
            Phase::Ended => 0,
            _ => self.file.left() + 3,
        }
    }

    /// What the next step does.
    pub fn phase(&self) -> Phase
        ensures { result ≡ self.now.phase }
    {
        self.phase
    }
}
