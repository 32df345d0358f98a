ghost use Rattle.std.specs.Prelude.{◌≡◌, ◌≢◌, ◌<◌, ◌+◌, ◌^◌, [], IfOk};
ghost use Rattle.folder_build.specs.Link.{IsPlaced, begun, is_showing, left};

mod steps;

use checkout::RemoveTask;
use ost_types::{FsPath, NoMemory, Text, TryCopy};
use std::alloc::Global;
use std::marker::Model;

/// What the next step does.
#[derive(Drop, Debug)]
pub(crate) enum LinkPhase {
    /// Removes what stands at the staging path.
    Clear(RemoveTask),
    /// Makes the link there.
    Make,
    /// Renames it to its target.
    Replace,
    /// Nothing.
    Ended,
}

/// The task that puts a symbolic link at a path in one call, a step at a time: it removes what an earlier task left at the staging
/// path, stages the link there, and renames it over the leaf that stands at its path. A crash at any moment leaves at that path
/// what was there, or the link. That the link outlasts a crash is for a later sync, for which its last step leaves room.
#[derive(Drop, Debug)]
pub struct LinkTask {
    alloc: Global,
    stage: FsPath,
    at: FsPath,
    target: Text,
    phase: LinkPhase,
}

impl Model for LinkTask {
    ghost use Rattle.folder_build.specs.Link.{Linking, IsMade};

    ghost Value = { Linking };

    ghost view = { λ a. record { stage = a.stage; at = a.at; target = a.target; phase = a.phase } };

    ghost invariant = { λ a. IsMade (record { stage = a.stage; at = a.at; target = a.target; phase = a.phase }) };
}

impl LinkTask {
    /// Puts a link with this target at a path, by way of the staging path, which nobody else uses.
    pub fn new(alloc: Global, stage: FsPath, at: FsPath, target: Text) -> Result<LinkTask, NoMemory>
        requires placed { IsPlaced stage at }
        requires target { target ≢ [] }
        ensures { IfOk result (λ t. t ≡ begun stage at target) }
    {
        let removing = RemoveTask::new(alloc, stage.copy()?);
        Ok(LinkTask {
            alloc,
            stage,
            at,
            target,
            phase: LinkPhase::Clear(removing),
        })
    }

    /// Whether the next step shows the link.
    pub fn shows(&self) -> bool
        ensures { result ≡ is_showing self.now.phase }
    {
        matches!(self.phase, LinkPhase::Replace)
    }

    /// At most so many steps are left.
    pub fn left(&self) -> u128
        ensures value { result ≡ left self.now }
        ensures small { result < 2 ^ 127 + 2 ^ 73 }
    {
        match &self.phase {
            LinkPhase::Clear(removing) => removing.left() + 3,
            LinkPhase::Make => 2,
            LinkPhase::Replace => 1,
            LinkPhase::Ended => 0,
        }
    }
}
