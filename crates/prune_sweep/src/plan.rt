//! What goes is listed, with room for all that its removal needs.
ghost use Rattle.std.specs.Prelude.{◌≡◌, ◌≤◌, List, map, Some, IfOk, IfErr};
ghost use Rattle.ost_types.specs.declared.object.ObjName.{ObjName as Name};
ghost use Rattle.fs_trait.specs.View.{View};
ghost use Rattle.fs_trait.specs.Effect.{HasCause, IsQuiet, OfNone};
ghost use Rattle.repo_model.specs.Objects.{path_of};
ghost use Rattle.store_check.specs.Listing.{AreAll};
ghost use Rattle.prune_mark.specs.Marking.{MarksAll};
ghost use Rattle.prune_sweep.specs.Sweeping.{AreFront, IsFresh};
ghost use Rattle.prune_sweep.specs.Planned.{IsPlanned};

use crate::lost::lost_marks;
use crate::sweep::Sweep;
use fs_trait::{Fs, FsErr};
use ost_types::{FsPath, Kind, NoMemory, ObjName};
use prune_mark::Marking;
use repo_layout::object_path;
use std::alloc::Global;

/// The sweep of all names without a mark, and of the marks of commits that are neither marked to stay nor pinned. It has the memory
/// that it needs from here on: some 400 bytes for an object that goes.
pub fn plan_sweep<F: Fs>(
    alloc: Global,
    fs: &mut F,
    marking: &Marking,
    pins: &[ObjName],
) -> Result<Sweep, FsErr>
    ensures told { (v : View) (from : List Name) → F.view fs.old ≡ Some v → AreAll v.now marking.now.names → MarksAll v.now from marking.now → IfOk result (IsPlanned v.now from marking.now.depth pins.now) }
    ensures fresh { IfOk result IsFresh }
    ensures named { IfErr result OfNone }
    ensures quiet { IsQuiet (F.clock fs.old) (F.clock fs.new) (F.was fs.old) (F.was fs.new) (F.view fs.old) (F.view fs.new) }
    ensures keeps_room { F.spare fs.old ≤ F.spare fs.new }
    ensures cause { HasCause (F.faults fs.old) (F.faults fs.new) result }
{
    let marks = lost_marks(alloc, fs, marking, pins)?;
    let removed = marking.doomed()?;
    let paths = paths_of(alloc, removed.as_slice())?;
    let commits = count_front(removed.as_slice());
    let kept = marking.names().len().saturating_sub(removed.len());
    if removed.len() >= MOST || marks.len() >= MOST {
        return Err(FsErr::NoMemory);
    }
    Ok(Sweep::new(removed, paths, commits, marks, kept))
}

/// No memory holds so many.
const MOST: usize = 1 << 62;

/// Where these objects stand.
fn paths_of(alloc: Global, names: &[ObjName]) -> Result<Vec<FsPath>, NoMemory>
    ensures { IfOk result (λ paths. paths.items ≡ map path_of names.now) }
{
    let mut paths = Vec::with_capacity(alloc, names.len())?;
    for name in names {
        paths.push(object_path(alloc, name)?)?;
    }
    Ok(paths)
}

/// How many commits come first.
fn count_front(names: &[ObjName]) -> usize
    ensures { AreFront names.now result }
{
    let mut count = 0;
    while count < names.len() && names[count].kind == Kind::Commit {
        count += 1;
    }
    count
}
