ghost use Rattle.std.specs.Prelude.{◌≡◌, ℕ, List, Some, IfOk, OnOk, if◌then◌else◌};
ghost use Rattle.ost_types.specs.Path.{same_name};
ghost use Rattle.rely_guarantee.specs.State.{State, RefOf, first, next_refs};
ghost use Rattle.ref_book.specs.Tracks.{Tracks, HasEventRoom, HasRoom, Lists, said_at};

use ost_types::{Csum, NoMemory, TryCopy};
use rely_guarantee::Event;
use repo_layout::RefName;
use std::alloc::Global;
use std::collections::BTreeMap;

/// What each ref names, found by its name in a time that grows with the logarithm of their number. Room for a ref is taken
/// before its change is published, so that the change itself takes no memory.
#[derive(Drop)]
pub struct RefBook {
    alloc: Global,
    // None: there is room for such a ref, and no ref
    refs: BTreeMap<RefName, Option<Csum>>,
}

impl RefBook {
    /// The refs at the opening.
    pub fn new(alloc: Global, start: &[(RefName, Csum)]) -> Result<RefBook, NoMemory>
        ensures { IfOk result (λ b. Tracks b (first start.now)) }
    {
        let mut refs = BTreeMap::new(alloc);
        let mut left = start.len();
        while left > 0 {
            left -= 1;
            let (name, commit) = &start[left];
            refs.insert(name.copy()?, Some(*commit))?;
        }
        Ok(RefBook { alloc, refs })
    }

    /// The commit that a ref names, or None where there is no such ref.
    pub fn get(&self, name: &RefName) -> Option<Csum>
        ensures { (s : State) → Tracks self.now s → result ≡ s (RefOf name.now) }
    {
        match self.refs.get(name) {
            Some(value) => *value,
            None => None,
        }
    }

    /// Makes room for a change of the ref.
    pub fn make_room(&mut self, name: &RefName) -> Result<(), NoMemory>
        ensures refs { (s : State) → Tracks self.old s → Tracks self.new s }
        ensures room { OnOk result (HasRoom self.new name.now) }
        ensures keeps { (other : List ℕ) → HasRoom self.old other → HasRoom self.new other }
    {
        if self.refs.contains_key(name) {
            return Ok(());
        }
        self.refs.insert(name.copy()?, None)?;
        Ok(())
    }

    /// The ref changes, for which there is room, if the event changes one.
    pub fn change(&mut self, event: &Event)
        requires { HasEventRoom self.old event.now }
        ensures refs { (s : State) → Tracks self.old s → Tracks self.new (next_refs event.now s) }
        ensures keeps { (other : List ℕ) → HasRoom self.old other → HasRoom self.new other }
    {
        match event {
            Event::SetRef {
                name,
                seen: _,
                commit,
            } => self.put(name, Some(*commit)),
            Event::DropRef { name, seen: _ } => self.put(name, None),
            Event::Pruned {
                depth: _,
                roots: _,
                held: _,
                removed: _,
            }
            | Event::SetDeployments { change: _, list: _ } => {}
        }
    }

    /// All refs, ascending by the bytes of their names.
    pub fn rows(&self) -> Result<Vec<(RefName, Csum)>, NoMemory>
        ensures { IfOk result (λ rows. (s : State) → Tracks self.now s → Lists rows.items s) }
    {
        let mut rows = Vec::new(self.alloc);
        for (name, value) in &self.refs {
            if let Some(commit) = value {
                rows.push((name.copy()?, *commit))?;
            }
        }
        Ok(rows)
    }
}

impl RefBook {
    fn put(&mut self, name: &RefName, value: Option<Csum>)
        requires { HasRoom self.old name.now }
        ensures there { (q : List ℕ) → said_at self.new q ≡ (if same_name name.now q then Some value else said_at self.old q) }
    {
        if let Some(there) = self.refs.get_mut(name) {
            *there = value;
        }
    }
}
