//! The task that reads the tree of a commit, an object a step.
ghost use Rattle.std.specs.Prelude.{◌≡◌, ◌≤◌, Some};
ghost use Rattle.fs_trait.specs.View.{View};
ghost use Rattle.fs_trait.specs.Effect.{HasCause, IsQuiet};
ghost use Rattle.fs_trait.specs.declared.task.Need.TheVariants as need;
ghost use Rattle.repo_model.specs.Objects.{Stores};
ghost use Rattle.tree_read.specs.Reading.{IsSoFar, IsStepped, StepTells, left_of, unread};
ghost use Rattle.tree_read.specs.TreeStore.{own_store};

use crate::at_file::AtFile;
use crate::fault::TreeFault;
use crate::looked::Looked;
use crate::objects::look_at_file;
use crate::walking::TreeWalk;
use fs_trait::{Fs, FsErr, Need, StepResult};
use ost_types::{Csum, Limits, PathMap};
use std::alloc::Global;
use std::marker::Model;

/// The task that reads the tree of a commit. A step reads at most one object, and none that was read before; the paths come in
/// their order.
#[derive(Drop, Debug)]
pub struct TreeTask {
    walk: TreeWalk,
}

impl Model for TreeTask {
    ghost use Rattle.tree_read.specs.Reading.{Reading};

    ghost Value = { Reading };

    ghost view = { λ a. a.walk };
}

/// A file's object is read.
struct Content;

impl AtFile for Content {
    ghost store = { Stores };

    ghost trees = { own_store };

    fn look<F: Fs>(
        alloc: Global,
        fs: &mut F,
        file: &Csum,
        limits: &Limits,
    ) -> Result<Looked<()>, FsErr> {
        look_at_file(alloc, fs, file, limits)
    }
}

impl TreeTask {
    pub fn new(alloc: Global, commit: Csum, limits: Limits) -> TreeTask
        ensures { result ≡ unread commit limits }
    {
        TreeTask {
            walk: TreeWalk::new(alloc, commit, limits),
        }
    }

    /// The paths that were read so far; after `Done(Ok(()))` the tree.
    pub fn found(&self) -> &PathMap
        ensures { result.now ≡ self.now.found }
    {
        self.walk.found()
    }

    /// The same, for good.
    pub fn into_found(self) -> PathMap
        ensures { result ≡ self.found }
    {
        self.walk.into_found()
    }

    /// The lock under which the next step must stand: none, since it changes nothing.
    pub fn needs(&self) -> Need
        ensures { result ≡ need.Nothing }
    {
        Need::Nothing
    }

    /// At most so many steps go on.
    pub fn left(&self) -> u128
        ensures { result ≡ left_of self.now }
    {
        self.walk.left()
    }

    /// Reads the next object. It is done when all was read, or with the first object that is missing or damaged. After an
    /// error the task is unchanged, so that the step may be tried again.
    pub fn step<F: Fs>(&mut self, fs: &mut F) -> Result<StepResult<Result<(), TreeFault>>, FsErr>
        ensures told { (v : View) → F.view fs.old ≡ Some v → IsSoFar (Stores v.now) self.old → StepTells v.now self.old result self.new }
        ensures stepped { IsStepped self.old result self.new }
        ensures quiet { IsQuiet (F.clock fs.old) (F.clock fs.new) (F.was fs.old) (F.was fs.new) (F.view fs.old) (F.view fs.new) }
        ensures keeps_room { F.spare fs.old ≤ F.spare fs.new }
        ensures cause { HasCause (F.faults fs.old) (F.faults fs.new) result }
    {
        self.walk.step::<Content, F>(fs)
    }
}
