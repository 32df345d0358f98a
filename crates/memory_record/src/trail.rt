ghost use Rattle.std.specs.Prelude.{◌≡◌, ◌++◌, ◌∷◌, [], List, ℕ, Option, None, length, get_or, IfOk, OnOk};
ghost use Rattle.ost_types.specs.Path.{Path, AreNames};
ghost use Rattle.ost_types.specs.Flat.{flat};
ghost use Rattle.fs_trait.specs.View.{View, put, named, moved, all_synced};
ghost use Rattle.fs_trait.specs.declared.types.Value as value;
ghost use Rattle.fs_trait.specs.declared.types.Value.TheVariants.{Absent};
ghost use Rattle.memory_table.specs.Tree.{Holds};
ghost use Rattle.memory_record.specs.Changes.{view_of, apply, spoiled};
ghost use Rattle.memory_record.specs.Crash.{chosen, has_more, place};
ghost use Rattle.memory_record.specs.Seen.{value_of};
ghost use Rattle.memory_record.specs.Trail.{Shows};

use crate::change::Change;
use crate::crash::place_of;
use crate::found::{Found, root_meta};
use fs_trait::Value;
use memory_table::{Table, Tree};
use ost_types::{Items, NoMemory, TryCopy};
use places::Place;
use std::alloc::Global;

/// The values that each path has after some changes: the one now, and the older ones that a crash may bring back.
#[derive(Drop)]
pub struct Trail {
    alloc: Global,
    table: Table,
    older: Tree<Items<Value>>,
}

/// The value that a path takes in a crash, and whether it has more than one.
#[derive(Drop)]
pub struct Picked<'a> {
    pub value: Found<'a>,
    pub more: bool,
}

impl Trail {
    pub fn new(alloc: Global) -> Trail
        ensures { Shows result (view_of []) }
    {
        Trail {
            alloc,
            table: Table::new(alloc, root_meta(alloc)),
            older: Tree::new(alloc, None),
        }
    }

    /// The trail of these changes.
    pub fn of(alloc: Global, changes: &[Change]) -> Result<Trail, NoMemory>
        ensures { IfOk result (λ t. Shows t (view_of changes.now)) }
    {
        let mut trail = Trail::new(alloc);
        for change in changes {
            trail.follow(change)?;
        }
        Ok(trail)
    }

    fn value(&self, text: &[u8]) -> Found<'_>
        ensures { (v : View) (p : Path) → Shows self.now v → AreNames p → text.now ≡ flat p → value_of result ≡ v.now.at p }
    {
        Found::or_absent(self.table.value(text))
    }

    /// The value that the i-th name takes in a crash.
    pub fn pick(&self, text: &[u8], picks: &[u32], i: usize) -> Picked<'_>
        ensures value { (v : View) (p : Path) → Shows self.now v → AreNames p → text.now ≡ flat p → value_of result.value ≡ chosen picks.now v i p }
        ensures more { (v : View) (p : Path) → Shows self.now v → AreNames p → text.now ≡ flat p → result.more ≡ has_more (v.older p) }
    {
        let value = self.value(text);
        match self.older.get(text) {
            None => Picked { value, more: false },
            Some(older) => Picked {
                value: one_of(older.as_slice(), value, picks, i),
                more: true,
            },
        }
    }

    fn follow(&mut self, change: &Change) -> Result<(), NoMemory>
        ensures { OnOk result ((v : View) → Shows self.old v → Shows self.new (apply change.now v)) }
    {
        match change {
            Change::Name(place, value) => self.name(place, value.copy()?),
            Change::Create(place, _, inode) => self.name(place, Value::File(*inode)),
            Change::Move(from, to) => self.rename(from, to),
            Change::SyncFolder(folder) => {
                self.older.clear(folder);
                Ok(())
            }
            Change::SyncAll => {
                self.forget();
                Ok(())
            }
            Change::Crash(_) => {
                self.forget();
                Ok(())
            }
            Change::Nothing => Ok(()),
            Change::Extend(_, _) => Ok(()),
            Change::SyncFile(_) => Ok(()),
        }
    }

    fn forget(&mut self)
        ensures { (v : View) (fill : ℕ) → Shows self.old v → Shows self.new (all_synced v) × Shows self.new (spoiled fill v) }
    {
        self.older = Tree::new(self.alloc, None);
    }

    fn copied(&self, place: &Place) -> Result<Value, NoMemory>
        ensures { IfOk result (λ x. (v : View) → Shows self.now v → x ≡ v.now.at place.now) }
    {
        self.value(place.text()).copy(self.alloc)
    }

    fn rename(&mut self, from: &Place, to: &Place) -> Result<(), NoMemory>
        ensures { OnOk result ((v : View) → Shows self.old v → Shows self.new (moved from.now to.now v)) }
    {
        let value = self.copied(from)?;
        self.name(to, value)?;
        self.name(from, Value::Absent)
    }

    fn name(&mut self, place: &Place, value: Value) -> Result<(), NoMemory>
        ensures { OnOk result ((v : View) → Shows self.old v → Shows self.new (named place.now value v)) }
    {
        let before = self.copied(place)?;
        let mut older = self.take(place)?;
        older.push(before)?;
        self.older.put(place, older)?;
        self.table.name(place, value)
    }

    fn take(&mut self, place: &Place) -> Result<Items<Value>, NoMemory>
        ensures table { self.new.table ≡ self.old.table }
        ensures value { IfOk result (λ xs. (v : View) → Shows self.old v → xs ≡ v.older place.now) }
        ensures left { OnOk result ((g : Path → Option (List value.Value)) → Holds self.old.older g → Holds self.new.older (put place.now None g)) }
    {
        Ok(match self.older.take_value(place)? {
            Some(older) => older,
            None => Items::new(self.alloc),
        })
    }
}

fn one_of<'a>(older: &'a [Value], now: Found<'a>, picks: &[u32], i: usize) -> Found<'a>
    ensures { value_of result ≡ get_or (older.entry.now ++ value_of now.entry ∷ []) (place picks.now i (length (older.entry.now ++ value_of now.entry ∷ []))) Absent }
{
    let place = place_of(picks, i, older.len() + 1);
    if place < older.len() {
        Found::of(&older[place])
    } else {
        now
    }
}
