//! The tree of a deployment's commit.
ghost use Rattle.std.specs.Prelude.{◌≡◌, ◌≤◌, Some, MatchResult};
ghost use Rattle.ost_types.specs.PathMap.{IsPathMap};
ghost use Rattle.fs_trait.specs.View.{View};
ghost use Rattle.fs_trait.specs.Effect.{HasCause, IsQuiet, OfNone};
ghost use Rattle.tree_read.specs.Reading.{unread};
ghost use Rattle.deployment_check.specs.Judging.{Walks};

use fs_trait::{Fs, FsErr, StepResult};
use ost_types::{Csum, Limits, PathMap};
use std::alloc::Global;
use tree_walk::WalkTask;

/// The tree of the commit; None where the commit isn't there whole. Its mark isn't asked for: it says that objects may be missing, and they
/// are looked for.
pub(crate) fn commit_tree<F: Fs>(
    alloc: Global,
    fs: &mut F,
    limits: Limits,
    commit: &Csum,
) -> Result<Option<PathMap>, FsErr>
    ensures told { (v : View) → F.view fs.old ≡ Some v → MatchResult result (Walks limits v.now commit.now) OfNone }
    ensures quiet { IsQuiet (F.clock fs.old) (F.clock fs.new) (F.was fs.old) (F.was fs.new) (F.view fs.old) (F.view fs.new) }
    ensures room { F.spare fs.old ≤ F.spare fs.new }
    ensures cause { HasCause (F.faults fs.old) (F.faults fs.new) result }
{
    walk(fs, WalkTask::new(alloc, *commit, limits))
}

// the walk from its first step to its last
fn walk<F: Fs>(fs: &mut F, task: WalkTask) -> Result<Option<PathMap>, FsErr>
    requires { task ≡ unread task.commit task.limits }
    ensures told { (v : View) → F.view fs.old ≡ Some v → MatchResult result (Walks task.limits v.now task.commit) OfNone }
    ensures quiet { IsQuiet (F.clock fs.old) (F.clock fs.new) (F.was fs.old) (F.was fs.new) (F.view fs.old) (F.view fs.new) }
    ensures room { F.spare fs.old ≤ F.spare fs.new }
    ensures cause { HasCause (F.faults fs.old) (F.faults fs.new) result }
{
    let mut walking = task;
    'steps: loop {
        match walking.step(fs)? {
            StepResult::More => {}
            StepResult::Done(Ok(())) => return Ok(Some(tree_of(walking))),
            StepResult::Done(Err(_)) => return Ok(None),
        }
    }
}

// what was found
fn tree_of(task: WalkTask) -> PathMap
    ensures value { result ≡ task.found }
    ensures map { IsPathMap result }
{
    let tree = task.into_found();
    // known by this: it is a map of paths
    let _nodes = tree.as_slice();
    tree
}
