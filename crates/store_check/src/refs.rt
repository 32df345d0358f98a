//! Refs name commits that are there and have no mark.
ghost use Rattle.std.specs.Prelude.{◌≡◌, ◌≤◌, Some, OnOk, IfOk, IfErr};
ghost use Rattle.fs_trait.specs.View.{View};
ghost use Rattle.fs_trait.specs.Effect.{HasCause, IsQuiet, OfNone};
ghost use Rattle.repo_layout.specs.Paths.{ref_path};
ghost use Rattle.store_check.specs.Faults.{HasCauseOf, CommitsFailed};
ghost use Rattle.store_check.specs.Finished.{AreFinished};
ghost use Rattle.store_check.specs.Refs.{Adds, ChecksRefs, IsFirstWrong, IsLesser};

use crate::fault::CommitsFault;
use crate::finished::is_known_finished;
use fs_trait::{Fs, FsErr};
use ost_types::{Csum, FsPath, Kind, ObjName};
use repo_layout::{RefName, ref_path};
use std::alloc::Global;
use std::collections::BTreeSet;

/// A ref whose commit is missing or has a mark, by the path of the ref's file.
#[derive(Drop)]
pub struct WrongRef {
    pub at: FsPath,
    pub commit: Csum,
}

/// Each of these refs names a commit that is there and has no mark; else the first that doesn't is told, by its path.
pub fn check_refs<F: Fs>(
    alloc: Global,
    fs: &mut F,
    refs: &[(RefName, Csum)],
) -> Result<(), CommitsFault>
    ensures told { (v : View) → F.view fs.old ≡ Some v → ChecksRefs v.now refs.now result }
    ensures quiet { IsQuiet (F.clock fs.old) (F.clock fs.new) (F.was fs.old) (F.was fs.new) (F.view fs.old) (F.view fs.new) }
    ensures keeps_room { F.spare fs.old ≤ F.spare fs.new }
    ensures cause { HasCauseOf (F.faults fs.old) (F.faults fs.new) (CommitsFailed result) }
{
    match first_wrong(alloc, fs, refs)? {
        None => Ok(()),
        Some(wrong) => Err(CommitsFault::Incomplete(
            wrong.at,
            ObjName {
                csum: wrong.commit,
                kind: Kind::Commit,
            },
        )),
    }
}

fn first_wrong<F: Fs>(
    alloc: Global,
    fs: &mut F,
    refs: &[(RefName, Csum)],
) -> Result<Option<WrongRef>, FsErr>
    ensures told { (v : View) → F.view fs.old ≡ Some v → IfOk result (IsFirstWrong v.now refs.now) }
    ensures named { IfErr result OfNone }
    ensures quiet { IsQuiet (F.clock fs.old) (F.clock fs.new) (F.was fs.old) (F.was fs.new) (F.view fs.old) (F.view fs.new) }
    ensures keeps_room { F.spare fs.old ≤ F.spare fs.new }
    ensures cause { HasCause (F.faults fs.old) (F.faults fs.new) result }
{
    let mut first = None;
    let mut finished = BTreeSet::new(alloc);
    for entry in refs {
        first = add(alloc, fs, &mut finished, first, entry)?;
    }
    Ok(first)
}

/// The lesser of the first wrong ref so far and of this one, if it is wrong.
fn add<F: Fs>(
    alloc: Global,
    fs: &mut F,
    finished: &mut BTreeSet<Csum>,
    first: Option<WrongRef>,
    entry: &(RefName, Csum),
) -> Result<Option<WrongRef>, FsErr>
    requires finished { (v : View) → F.view fs.old ≡ Some v → AreFinished v.now finished.old }
    ensures told { (v : View) → F.view fs.old ≡ Some v → IfOk result (Adds v.now first entry.now) }
    ensures finished { (v : View) → F.view fs.old ≡ Some v → OnOk result (AreFinished v.now finished.new) }
    ensures named { IfErr result OfNone }
    ensures quiet { IsQuiet (F.clock fs.old) (F.clock fs.new) (F.was fs.old) (F.was fs.new) (F.view fs.old) (F.view fs.new) }
    ensures keeps_room { F.spare fs.old ≤ F.spare fs.new }
    ensures cause { HasCause (F.faults fs.old) (F.faults fs.new) result }
{
    if is_known_finished(alloc, fs, finished, &entry.1)? {
        return Ok(first);
    }
    let wrong = WrongRef {
        at: ref_path(alloc, &entry.0)?,
        commit: entry.1,
    };
    Ok(Some(lesser(first, wrong)))
}

fn lesser(first: Option<WrongRef>, other: WrongRef) -> WrongRef
    ensures { IsLesser first other result }
{
    match first {
        None => other,
        Some(first) => { if other.at < first.at { other } else { first } }
    }
}
