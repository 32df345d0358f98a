ghost use Rattle.std.specs.Prelude.{◌≡◌, ◌≤◌, ◌+◌, ◌-◌, ◌++◌, ◌∷◌, [], IfOk, IfSome, OnOk, OnErr, is_ok, if◌then◌else◌};
ghost use Rattle.std.specs.Vec.{vec_capacity, vec_len};
ghost use Rattle.ost_types.specs.Path.{Path, AreNames};
ghost use Rattle.ost_types.specs.Flat.{flat};
ghost use Rattle.fs_trait.specs.View.{View};
ghost use Rattle.fs_trait.specs.Effect.{HasNames, IsListing};
ghost use Rattle.memory_record.specs.Changes.{view_of, apply};
ghost use Rattle.memory_record.specs.Seen.{value_of};
ghost use Rattle.memory_record.specs.Tied.{IsTied, IsTiedTo};

use crate::change::Change;
use crate::found::{Found, value_at};
use crate::listing;
use crate::state::State;
use memory_table::File;
use ost_types::{Names, NoMemory};
use places::Place;
use std::alloc::Global;
use std::mem::take;

/// The record of changes, and what they came to. Where memory was wanting for that there is none, and all is read from the
/// record.
#[derive(Drop)]
pub struct Past {
    pub changes: Vec<Change>,
    state: Option<State>,
    ghost tied: { IsTied state changes.items },
}

impl Past {
    pub fn new(alloc: Global) -> Past
        ensures { result.changes.items ≡ [] }
    {
        Past {
            changes: Vec::new(alloc),
            state: Some(State::new(alloc)),
        }
    }

    /// One change more.
    pub fn push(&mut self, change: Change) -> Result<(), NoMemory>
        ensures items { self.new.changes.items ≡ (if is_ok result then self.old.changes.items ++ change ∷ [] else self.old.changes.items) }
        ensures full { OnErr result (vec_capacity self.old.changes ≤ vec_len self.old.changes) }
        ensures left { vec_capacity self.old.changes - vec_len self.old.changes ≤ (vec_capacity self.new.changes - vec_len self.new.changes) + 1 }
    {
        let count = self.changes.len();
        self.changes.push(change)?;
        self.state = followed(take(&mut self.state), &self.changes[count]);
        Ok(())
    }

    /// Room for so many changes more.
    pub fn reserve(&mut self, count: usize) -> Result<(), NoMemory>
        ensures items { self.new.changes.items ≡ self.old.changes.items }
        ensures ok { OnOk result (vec_len self.new.changes + count ≤ vec_capacity self.new.changes) }
        ensures capacity { vec_capacity self.old.changes ≤ vec_capacity self.new.changes }
        ensures len { vec_len self.new.changes ≡ vec_len self.old.changes }
    {
        self.changes.reserve(count)?;
        Ok(())
    }

    /// What stands at a path.
    pub fn value_at<'a>(&'a self, path: &'a [u8]) -> Found<'a>
        ensures { (p : Path) → AreNames p → path.now ≡ flat p → value_of result ≡ (view_of self.now.changes.items).now.at p }
    {
        match &self.state {
            Some(state) => state.value(path),
            None => value_at(&self.changes, path),
        }
    }

    /// A file, where there is no need to read it from the record.
    pub fn file(&self, inode: u64) -> Option<&File>
        ensures { IfSome result (λ f. (f.now.meta ≡ (view_of self.now.changes.items).now.meta inode) × (f.now.bytes ≡ (view_of self.now.changes.items).now.bytes inode)) }
    {
        match &self.state {
            Some(state) => state.file(inode),
            None => None,
        }
    }

    /// Whether a folder can't be removed: it is the root, or has names.
    pub fn has_names(&self, folder: &Place) -> bool
        ensures { HasNames result folder.now (view_of self.now.changes.items).now }
    {
        match &self.state {
            Some(state) => state.has_names(folder),
            None => listing::has_names(&self.changes, folder),
        }
    }

    /// The names directly in a folder, ascending.
    pub fn names_in(&self, alloc: Global, folder: &Place) -> Result<Names, NoMemory>
        ensures { IfOk result (λ names. IsListing (view_of self.now.changes.items).now folder.now names) }
    {
        match &self.state {
            Some(state) => state.names_in(folder),
            None => listing::names_in(alloc, &self.changes, folder),
        }
    }
}

// What they came to after one change more.
fn followed(state: Option<State>, change: &Change) -> Option<State>
    ensures { (v : View) → IsTiedTo state v → IsTiedTo result (apply change.now v) }
{
    let mut state = state?;
    state.follow(change).ok()?;
    Some(state)
}
