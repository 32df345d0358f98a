//! `ls` reads the whole tree, and lists a part of it.
ghost use Rattle.std.specs.Prelude.{◌≡◌, ◌≤◌, Some, None, IfOk, IfErr, OnErr};
ghost use Rattle.fs_trait.specs.View.{View};
ghost use Rattle.fs_trait.specs.Effect.{HasCause, IsQuiet, OfNone};
ghost use Rattle.repo_model.specs.Objects.{Stores};
ghost use Rattle.tree_read.specs.Reading.{left_of, unread};
ghost use Rattle.read_command.specs.LsSteps.{IsListed, IsLsStepped, LsKnows, LsTells};

use crate::ReadAnswer;
use crate::answer::lacking;
use crate::rows::rows_below;
use fs_trait::{Fs, FsErr, StepResult};
use ost_types::{Csum, FsPath, Limits, NoMemory, TryCopy};
use std::alloc::Global;
use tree_read::{TreeFault, TreeTask};

#[derive(Drop, Debug)]
pub struct Ls {
    alloc: Global,
    path: FsPath,
    task: TreeTask,
}

impl Ls {
    pub(crate) fn new(alloc: Global, limits: Limits, commit: Csum, path: FsPath) -> Ls
        ensures { result ≡ record { alloc = alloc; path = path; task = unread commit limits } }
    {
        Ls {
            alloc,
            path,
            task: TreeTask::new(alloc, commit, limits),
        }
    }

    /// At most so many steps go on.
    pub(crate) fn left(&self) -> u128
        ensures { result ≡ left_of self.now.task }
    {
        self.task.left()
    }

    /// Reads the next object. None where it goes on.
    pub(crate) fn step<F: Fs>(&mut self, fs: &mut F) -> Result<Option<ReadAnswer>, FsErr>
        ensures told { (v : View) → F.view fs.old ≡ Some v → LsKnows (Stores v.now) self.old → IfOk result (LsTells v.now self.old self.new) }
        ensures stepped { IfOk result (IsLsStepped self.old self.new) }
        ensures stays { OnErr result (self.new ≡ self.old) }
        ensures named { (v : View) → F.view fs.old ≡ Some v → LsKnows (Stores v.now) self.old → IfErr result OfNone }
        ensures quiet { IsQuiet (F.clock fs.old) (F.clock fs.new) (F.was fs.old) (F.was fs.new) (F.view fs.old) (F.view fs.new) }
        ensures keeps_room { F.spare fs.old ≤ F.spare fs.new }
        ensures cause { HasCause (F.faults fs.old) (F.faults fs.new) result }
    {
        match self.task.step(fs)? {
            StepResult::More => Ok(None),
            StepResult::Done(Ok(())) => Ok(Some(self.listed()?)),
            StepResult::Done(Err(TreeFault::Absent(name))) => Ok(Some(lacking(self.alloc, &name)?)),
            StepResult::Done(Err(TreeFault::Damaged(name))) => Ok(Some(lacking(
                self.alloc, &name,
            )?)),
            StepResult::Done(Err(TreeFault::Fs(_) | TreeFault::NoMemory)) => Err(FsErr::NoMemory),
        }
    }

    /// What is listed of the tree, once all of it was read.
    fn listed(&self) -> Result<ReadAnswer, NoMemory>
        ensures { IfOk result (IsListed self.now.path self.now.task.found) }
    {
        let tree = self.task.found();
        match tree.get(&self.path) {
            None => Ok(ReadAnswer::NoPath(self.path.copy()?)),
            Some(_) => Ok(ReadAnswer::Ls(rows_below(self.alloc, tree, &self.path)?)),
        }
    }
}
