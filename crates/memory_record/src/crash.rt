ghost use Rattle.std.specs.Prelude.{◌≡◌, ◌<◌, ◌+◌, ◌^◌, ◌++◌, ◌∷◌, ◌↔◌, ℕ, List, [], Contains, cond, IfOk, OnOk, if◌then◌else◌};
ghost use Rattle.std.specs.List.{flat_map};
ghost use Rattle.std.specs.List.Sorted.{IsStrictlySortedBy};
ghost use Rattle.ost_types.specs.Path.{Path, path_cmp, under};
ghost use Rattle.fs_trait.specs.View.{View};
ghost use Rattle.fs_trait.specs.Image.{is_folder};
ghost use Rattle.memory_record.specs.Changes.{view_of, IsSound};
ghost use Rattle.fs_trait.specs.declared.types.Value.TheVariants.{Absent};
ghost use Rattle.memory_record.specs.declared.change.Change.TheVariants.{Name as Named};
ghost use Rattle.memory_record.specs.Crash.{place, chosen, has_more, IsCrashOf};
ghost use Rattle.memory_record.specs.Trail.{Shows};
ghost use Rattle.memory_record.specs.Traces.{below_root, named_by};
ghost use Rattle.memory_record.specs.Seen.{value_of};

use crate::change::Change;
use crate::found::Found;
use crate::past::Past;
use crate::trail::Trail;
use fs_trait::Value;
use memory_table::folder_of;
use ost_types::{NoMemory, TryCopy};
use places::Place;
use std::alloc::Global;

/// What a crash leaves where it has a choice.
#[derive(Drop, Debug)]
pub struct Choice {
    /// Of the names that have more than one value, in ascending order of their paths, the i-th takes the value at the
    /// place that the i-th of these numbers gives, counted from the oldest value on; both go round. With no numbers
    /// each takes its last value.
    pub picks: Vec<u32>,
    /// Each byte of a file that isn't synced is XORed with this one.
    pub fill: u8,
}

/// The place of the value that the i-th name takes, of so many.
pub fn place_of(picks: &[u32], i: usize, count: usize) -> usize
    requires { 0 < count }
    ensures { result ≡ place picks.now i count }
{
    if picks.is_empty() {
        count - 1
    } else {
        picks[i % picks.len()] as usize % count
    }
}

// Nothing is where no folder is above it.
fn masked(alloc: Global, value: &Found, folder: &Found) -> Result<Value, NoMemory>
    ensures { IfOk result (λ x. x ≡ (if is_folder (value_of folder.now) then value_of value.now else Absent)) }
{
    if folder.is_folder() {
        value.copy(alloc)
    } else {
        Ok(Value::Absent)
    }
}

// Gives one path the value that the crash leaves there, and counts it if it had more than one.
fn leave(
    alloc: Global,
    trail: &Trail,
    picks: &[u32],
    path: &Place,
    left: &mut Past,
    names: usize,
) -> Result<usize, NoMemory>
    requires { names + 1 < 2 ^ 64 }
    ensures left { OnOk result ((v : View) (f : Path) (x : List ℕ) → Shows trail.now v → path.now ≡ under f x → left.new.changes.items ≡ left.old.changes.items ++ Named path.now (if is_folder ((view_of left.old.changes.items).now.at f) then chosen picks.now v names path.now else Absent) ∷ []) }
    ensures count { IfOk result (λ n. (v : View) → Shows trail.now v → n ≡ names + cond (has_more (v.older path.now)) 1 0) }
{
    let picked = trail.pick(path.text(), picks, names);
    let value = masked(alloc, &picked.value, &left.value_at(folder_of(path.text())))?;
    left.push(Change::Name(path.copy()?, value))?;
    Ok(if picked.more { names + 1 } else { names })
}

fn note(paths: &mut Vec<Place>, path: &Place) -> Result<(), NoMemory>
    ensures { OnOk result (paths.new.items ≡ paths.old.items ++ below_root path.now) }
{
    if !path.text().is_empty() {
        paths.push(path.copy()?)?;
    }
    Ok(())
}

fn note_all(paths: &mut Vec<Place>, change: &Change) -> Result<(), NoMemory>
    ensures { OnOk result (paths.new.items ≡ paths.old.items ++ named_by change.now) }
{
    match change {
        Change::Name(path, _) => note(paths, path),
        Change::Create(path, _, _) => note(paths, path),
        Change::Move(from, to) => {
            note(paths, from)?;
            note(paths, to)
        }
        Change::Nothing => Ok(()),
        Change::Extend(_, _) => Ok(()),
        Change::SyncFile(_) => Ok(()),
        Change::SyncFolder(_) => Ok(()),
        Change::SyncAll => Ok(()),
        Change::Crash(_) => Ok(()),
    }
}

// The paths that changes name, ascending, but the root.
fn paths_of(alloc: Global, changes: &[Change]) -> Result<Vec<Place>, NoMemory>
    ensures ascending { IfOk result (λ v. IsStrictlySortedBy path_cmp v.items) }
    ensures each { IfOk result (λ v. (p : Path) → Contains v.items p ↔ Contains (flat_map named_by changes.now) p) }
{
    let mut paths = Vec::new(alloc);
    for change in changes {
        note_all(&mut paths, change)?;
    }
    paths.sort_unstable();
    paths.dedup();
    Ok(paths)
}

fn copied(alloc: Global, changes: &[Change]) -> Result<Past, NoMemory>
    ensures { IfOk result (λ past. past.changes.items ≡ changes.now) }
{
    let mut past = Past::new(alloc);
    for change in changes {
        past.push(change.copy()?)?;
    }
    Ok(past)
}

/// What a crash leaves after these changes.
pub fn crashed(alloc: Global, changes: &[Change], choice: &Choice) -> Result<Past, NoMemory>
    requires { IsSound changes.now }
    ensures crash { IfOk result (λ past. IsCrashOf (view_of changes.now) choice.now.picks.items choice.now.fill (view_of past.changes.items)) }
    ensures sound { IfOk result (λ past. IsSound past.changes.items) }
{
    let paths = paths_of(alloc, changes)?;
    let trail = Trail::of(alloc, changes)?;
    let mut left = copied(alloc, changes)?;
    let mut names = 0;
    for path in &paths {
        names = leave(alloc, &trail, &choice.picks, path, &mut left, names)?;
    }
    left.push(Change::Crash(choice.fill))?;
    Ok(left)
}
