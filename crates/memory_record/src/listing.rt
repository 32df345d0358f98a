ghost use Rattle.std.specs.Prelude.{◌≡◌, ◌≢◌, ℕ, List, MatchOption, IfOk, IfSome, Some, false, option_copied};
ghost use Rattle.ost_types.specs.Path.{Path, AreNames, under, is_in};
ghost use Rattle.ost_types.specs.Flat.{flat};
ghost use Rattle.ost_types.specs.Text.{IsName};
ghost use Rattle.fs_trait.specs.Effect.{HasNames, IsListing};
ghost use Rattle.fs_trait.specs.declared.types.Value.TheVariants.{Absent};
ghost use Rattle.memory_record.specs.Changes.{view_of};
ghost use Rattle.memory_record.specs.Seen.{target_of};

use crate::change::Change;
use crate::found::{Found, value_at};
use ost_types::{Name, Names, NoMemory};
use places::Place;
use std::alloc::Global;

/// The path to which a change gives a value.
pub fn target(change: &Change) -> Option<&Place>
    ensures { option_copied result ≡ target_of change.now }
{
    match change {
        Change::Name(place, _) => Some(place),
        Change::Create(place, _, _) => Some(place),
        Change::Move(_, to) => Some(to),
        Change::Nothing => None,
        Change::Extend(_, _) => None,
        Change::SyncFile(_) => None,
        Change::SyncFolder(_) => None,
        Change::SyncAll => None,
        Change::Crash(_) => None,
    }
}

/// The name that a path has directly in a folder.
pub fn name_in<'a>(folder: &[u8], text: &'a [u8]) -> Option<&'a [u8]>
    ensures { (f p : Path) → AreNames f → AreNames p → folder.now ≡ flat f → text.now ≡ flat p → MatchOption result (is_in f p ≡ false) (λ x. p ≡ under f x.now) }
{
    let Some(rest) = text.strip_prefix(folder) else {
        return None;
    };
    if rest.is_empty() {
        return None;
    }
    let name = &rest[..rest.len() - 1];
    if name.contains(&0) {
        return None;
    }
    Some(name)
}

// The name that a change gave a value, directly in a folder, if it still has one.
fn name_now<'a>(changes: &[Change], folder: &Place, change: &'a Change) -> Option<&'a [u8]>
    ensures each { (x : List ℕ) → target_of change.now ≡ Some (under folder.now x) → MatchOption result ((view_of changes.now).now.at (under folder.now x) ≡ Absent) (λ y. y.now ≡ x) }
    ensures some { IfSome result (λ y. IsName y.now × ((view_of changes.now).now.at (under folder.now y.now) ≢ Absent)) }
{
    let Some(place) = target(change) else {
        return None;
    };
    let Some(name) = name_in(folder.text(), place.text()) else {
        return None;
    };
    match value_at(changes, place.text()) {
        Found::Absent => None,
        _ => Some(name),
    }
}

/// Whether a folder can't be removed: it is the root, or has names.
pub fn has_names(changes: &[Change], folder: &Place) -> bool
    ensures { HasNames result folder.now (view_of changes.now).now }
{
    if folder.text().is_empty() {
        return true;
    }
    for change in changes {
        if name_now(changes, folder, change).is_some() {
            return true;
        }
    }
    false
}

/// The names directly in a folder, ascending.
pub fn names_in(alloc: Global, changes: &[Change], folder: &Place) -> Result<Names, NoMemory>
    ensures { IfOk result (λ names. IsListing (view_of changes.now).now folder.now names) }
{
    let mut names: Vec<Name> = Vec::new(alloc);
    for change in changes {
        if let Some(text) = name_now(changes, folder, change) {
            match Name::parse(alloc, text)? {
                Some(name) => names.push(name)?,
                None => unreachable!(),
            }
        }
    }
    names.sort_unstable();
    names.dedup();
    Ok(Names::from_vec(names))
}
