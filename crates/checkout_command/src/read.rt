//! The tree of the commit is walked, an object a step.
ghost use Rattle.std.specs.Prelude.{◌≡◌, ◌≤◌, ◌↔◌, [], Some, IfOk, IfErr, IsTrue};
ghost use Rattle.ost_types.specs.PathMap.{IsPathMap};
ghost use Rattle.fs_trait.specs.View.{Disk, View};
ghost use Rattle.fs_trait.specs.Effect.{HasCause, IsQuiet, OfNone};
ghost use Rattle.tree_read.specs.Reading.{Knows};
ghost use Rattle.tree_walk.specs.Standing.{Standing};
ghost use Rattle.checkout_command.specs.ReadSteps.{CanMake, IsReadEnd, IsReadStepped, Lacks, ReadEnds, ReadKnows, ReadTells, read_left, reading};

use crate::answer::lacking;
use crate::placing::is_placed;
use crate::{CheckoutCommand, Make, Request};
use fs_trait::{Fs, FsErr, StepResult};
use ost_types::{FsPath, Kind, NoMemory, ObjName, PathMap};
use std::marker::Model;
use std::mem;
use tree_read::TreeFault;
use tree_walk::WalkTask;

#[derive(Drop, Debug)]
pub struct Read {
    request: Request,
    task: WalkTask,
}

impl Model for Read {
    ghost use Rattle.std.specs.Prelude.{◌≡◌};
    ghost use Rattle.checkout_command.specs.Reads.{Reads};

    ghost Value = { Reads };

    ghost view = { λ a. record { request = a.request; task = a.task } };

    ghost invariant = { λ a. a.task.limits ≡ a.request.limits };
}

impl Read {
    pub(crate) fn new(request: Request) -> Read
        ensures { result ≡ reading request }
    {
        let task = WalkTask::new(request.alloc, request.commit, request.limits);
        Read { request, task }
    }

    /// At most so many steps go on.
    pub(crate) fn left(&self) -> u128
        ensures { result ≡ read_left self.now }
    {
        self.task.left() + self.request.paths() as u128 + 2
    }

    /// Looks at the next object. None where it goes on.
    pub(crate) fn step<F: Fs>(&mut self, fs: &mut F) -> Result<Option<CheckoutCommand>, FsErr>
        ensures told { (v : View) → F.view fs.old ≡ Some v → ReadKnows (Standing v.now) self.old → IfOk result (ReadTells v.now self.old self.new) }
        ensures stepped { IfOk result (IsReadStepped self.old self.new) }
        ensures named { (v : View) → F.view fs.old ≡ Some v → ReadKnows (Standing v.now) self.old → IfErr result OfNone }
        ensures quiet { IsQuiet (F.clock fs.old) (F.clock fs.new) (F.was fs.old) (F.was fs.new) (F.view fs.old) (F.view fs.new) }
        ensures keeps_room { F.spare fs.old ≤ F.spare fs.new }
        ensures cause { HasCause (F.faults fs.old) (F.faults fs.new) result }
    {
        match self.task.step(fs)? {
            StepResult::More => Ok(None),
            StepResult::Done(Ok(())) => Ok(Some(self.whole()?)),
            StepResult::Done(Err(TreeFault::Absent(name))) => Ok(Some(self.lacks(&name)?)),
            StepResult::Done(Err(TreeFault::Damaged(name))) => Ok(Some(self.lacks(&name)?)),
            StepResult::Done(Err(TreeFault::Fs(_) | TreeFault::NoMemory)) => Err(FsErr::NoMemory),
        }
    }

    /// All was seen, and is to be made. What isn't the tree of a commit isn't made.
    fn whole(&mut self) -> Result<CheckoutCommand, NoMemory>
        ensures told { (d : Disk) → ReadKnows (Standing d) self.old → Knows (Standing d) self.old.task → self.old.task.pending ≡ [] → IfOk result (ReadEnds d self.old) }
        ensures stepped { IfOk result (IsReadEnd self.old) }
    {
        let request = self.request.copied()?;
        let into = self.request.path()?;
        if !self.can_make(&into) {
            return self.lacks(&ObjName {
                csum: request.commit,
                kind: Kind::Commit,
            });
        }
        let tree = self.taken();
        Ok(CheckoutCommand::Make(Make::new(request, into, tree)))
    }

    /// Whether it is a tree within the limits that may be made at the path.
    fn can_make(&self, into: &FsPath) -> bool
        ensures can { IsTrue result ↔ CanMake into.now self.now }
        ensures map { IsPathMap self.now.task.found }
    {
        let tree = self.task.found();
        if tree.as_slice().len() as u64 > self.request.paths() as u64 {
            return false;
        }
        is_placed(into, tree)
    }

    fn taken(&mut self) -> PathMap
        ensures { result ≡ self.old.task.found }
    {
        let request = &self.request;
        let none = WalkTask::new(request.alloc, request.commit, request.limits);
        mem::replace(&mut self.task, none).into_found()
    }

    fn lacks(&self, name: &ObjName) -> Result<CheckoutCommand, NoMemory>
        ensures { IfOk result (Lacks name.now) }
    {
        Ok(CheckoutCommand::Ended(lacking(self.request.alloc, name)?))
    }
}
