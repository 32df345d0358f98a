ghost use Rattle.std.specs.Prelude.{◌≡◌, ◌<◌, ◌+◌, ◌^◌, IfOk};
ghost use Rattle.fs_trait.specs.declared.task.Need.TheVariants as need;
ghost use Rattle.folder_build.specs.Build.{IsPlan, begun, left};

mod steps;

use crate::node::NewNode;
use crate::phase::Phase;
use checkout::RemoveTask;
use fs_trait::Need;
use ost_types::{FsPath, NoMemory, TryCopy};
use std::alloc::Global;
use std::marker::Model;

/// The task that makes a folder with given nodes in it, a step at a time: it removes what stands at the folder's path, with all that
/// is in it, and then makes one node after the other. Nothing else stands at the path or below it then. That it outlasts a crash
/// is for a later sync.
#[derive(Drop, Debug)]
pub struct BuildTask {
    alloc: Global,
    top: FsPath,
    nodes: Vec<NewNode>,
    phase: Phase,
}

impl Model for BuildTask {
    ghost use Rattle.folder_build.specs.Build.{Building, IsMade};

    ghost Value = { Building };

    ghost view = { λ a. record { top = a.top; nodes = a.nodes.items; phase = a.phase } };

    ghost invariant = { λ a. IsMade (record { top = a.top; nodes = a.nodes.items; phase = a.phase }) };
}

impl BuildTask {
    /// Makes these nodes, of which the first is the folder and each other one lies in one before it.
    pub fn new(alloc: Global, top: FsPath, nodes: Vec<NewNode>) -> Result<BuildTask, NoMemory>
        requires { IsPlan top nodes.items }
        ensures { IfOk result (λ t. t ≡ begun top nodes.items) }
    {
        let removing = RemoveTask::new(alloc, top.copy()?);
        Ok(BuildTask {
            alloc,
            top,
            nodes,
            phase: Phase::Clear(removing),
        })
    }

    /// The lock under which the next step must stand: none.
    pub fn needs(&self) -> Need
        ensures { result ≡ need.Nothing }
    {
        Need::Nothing
    }

    /// At most so many steps are left.
    pub fn left(&self) -> u128
        ensures value { result ≡ left self.now }
        ensures small { result < 2 ^ 127 + 2 ^ 73 }
    {
        let count = self.nodes.len() as u128;
        match &self.phase {
            Phase::Clear(removing) => removing.left() + 2 * count + 1,
            Phase::Make(number) => 2 * (count - *number as u128),
            Phase::Write(number) => 2 * (count - *number as u128) - 1,
            Phase::Ended => 0,
        }
    }
}
