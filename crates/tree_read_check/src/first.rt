//! What is wrong first with the tree of a commit.

ghost use Rattle.std.specs.Prelude.{◌≡◌, Some, IfOk, IfErr};
ghost use Rattle.fs_trait.specs.View.{View};
ghost use Rattle.fs_trait.specs.Effect.{HasCause, OfNone};
ghost use Rattle.tree_read_check.specs.Wrongs.{IsFirst};

use fs_trait::{Fs, FsErr};
use ost_types::{Csum, Limits, ObjName};
use std::alloc::Global;
use tree_read::{TreeFault, tree_of};

/// An object of the tree, or the commit itself.
#[derive(Clone, Copy, Debug, PartialEq, Eq)]
pub enum Wrong {
    /// Nothing stands at the object's path.
    Absent(ObjName),
    /// Something else stands there, or it names a path that is past the bounds.
    Damaged(ObjName),
}

/// None where the commit is whole within the limits, else what is missing or damaged first.
pub fn first_wrong<F: Fs>(
    alloc: Global,
    fs: &mut F,
    commit: &Csum,
    limits: &Limits,
) -> Result<Option<Wrong>, FsErr>
    ensures told { (v : View) → F.view fs.old ≡ Some v → IfOk result (IsFirst v.now limits.now commit.now) }
    ensures named { (v : View) → F.view fs.old ≡ Some v → IfErr result OfNone }
    ensures same { F.view fs.new ≡ F.view fs.old }
    ensures cause { HasCause (F.faults fs.old) (F.faults fs.new) result }
{
    match tree_of(alloc, fs, commit, limits) {
        Ok(_map) => Ok(None),
        Err(TreeFault::Absent(name)) => Ok(Some(Wrong::Absent(name))),
        Err(TreeFault::Damaged(name)) => Ok(Some(Wrong::Damaged(name))),
        Err(TreeFault::Fs(refusal)) => Err(refusal),
        Err(TreeFault::NoMemory) => Err(FsErr::NoMemory),
    }
}
