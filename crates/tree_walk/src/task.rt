//! The task that walks the tree of a commit, an object a step.
ghost use Rattle.std.specs.Prelude.{◌≡◌, ◌≤◌, Some};
ghost use Rattle.fs_trait.specs.View.{View};
ghost use Rattle.fs_trait.specs.Effect.{HasCause, IsQuiet};
ghost use Rattle.fs_trait.specs.declared.task.Need.TheVariants as need;
ghost use Rattle.tree_read.specs.Reading.{IsSoFar, IsStepped, TellsIn, left_of, unread};
ghost use Rattle.tree_walk.specs.Standing.{Standing, standing_store};

use crate::leaf::look_at_leaf;
use fs_trait::{Fs, FsErr, Need, StepResult};
use ost_types::{Csum, Limits, PathMap};
use std::alloc::Global;
use std::marker::Model;
use tree_read::{AtFile, Looked, TreeFault, TreeWalk};

/// The task that walks the tree of a commit. A step reads at most one object, or looks whether that of a file stands, and at none
/// twice; the paths come in their order.
#[derive(Drop, Debug)]
pub struct WalkTask {
    walk: TreeWalk,
}

impl Model for WalkTask {
    ghost use Rattle.tree_read.specs.Reading.{Reading};

    ghost Value = { Reading };

    ghost view = { λ a. a.walk };
}

/// It is looked whether a file's object stands.
struct Presence;

impl AtFile for Presence {
    ghost store = { Standing };

    ghost trees = { standing_store };

    fn look<F: Fs>(
        alloc: Global,
        fs: &mut F,
        file: &Csum,
        limits: &Limits,
    ) -> Result<Looked<()>, FsErr> {
        look_at_leaf(alloc, fs, file, limits)
    }
}

impl WalkTask {
    pub fn new(alloc: Global, commit: Csum, limits: Limits) -> WalkTask
        ensures { result ≡ unread commit limits }
    {
        WalkTask {
            walk: TreeWalk::new(alloc, commit, limits),
        }
    }

    /// The paths that were read so far; after `Done(Ok(()))` the tree.
    pub fn found(&self) -> &PathMap
        ensures { result.now ≡ self.now.found }
    {
        self.walk.found()
    }

    /// The same, for good.
    pub fn into_found(self) -> PathMap
        ensures { result ≡ self.found }
    {
        self.walk.into_found()
    }

    /// The lock under which the next step must stand: none, since it changes nothing.
    pub fn needs(&self) -> Need
        ensures { result ≡ need.Nothing }
    {
        Need::Nothing
    }

    /// At most so many steps go on.
    pub fn left(&self) -> u128
        ensures { result ≡ left_of self.now }
    {
        self.walk.left()
    }

    /// Looks at the next object. It is done when all was seen, or with the first object that is missing or damaged. After an
    /// error the task is unchanged, so that the step may be tried again.
    pub fn step<F: Fs>(&mut self, fs: &mut F) -> Result<StepResult<Result<(), TreeFault>>, FsErr>
        ensures told { (v : View) → F.view fs.old ≡ Some v → IsSoFar (Standing v.now) self.old → TellsIn (Standing v.now) v.now self.old result self.new }
        ensures stepped { IsStepped self.old result self.new }
        ensures quiet { IsQuiet (F.clock fs.old) (F.clock fs.new) (F.was fs.old) (F.was fs.new) (F.view fs.old) (F.view fs.new) }
        ensures keeps_room { F.spare fs.old ≤ F.spare fs.new }
        ensures cause { HasCause (F.faults fs.old) (F.faults fs.new) result }
    {
        self.walk.step::<Presence, F>(fs)
    }
}
