ghost use Rattle.std.specs.Prelude.{◌≡◌, ◌&&◌, [], List, ℕ, Option, Some, None, IfOk, OnOk, if◌then◌else◌, option_copied};
ghost use Rattle.ost_types.specs.Path.{Path, AreNames, same_name, is_in};
ghost use Rattle.ost_types.specs.Flat.{flat};
ghost use Rattle.ost_types.specs.Text.{IsName};
ghost use Rattle.fs_trait.specs.View as view;
ghost use Rattle.memory_table.specs.Tree.{look, look_in, Holds, HasAny, IsNamesIn};

use crate::folder::Folder;
use crate::parts::split;
use ost_types::{Names, NoMemory};
use places::Place;
use std::alloc::Global;
use std::collections::BTreeMap;

/// A map from paths: for each folder that from its names.
#[derive(Drop)]
pub struct Tree<V> {
    alloc: Global,
    root: Option<V>,
    folders: BTreeMap<Vec<u8>, Folder<V>>,
}

impl<V: Drop> Tree<V> {
    /// A map that has at most the root.
    pub fn new(alloc: Global, root: Option<V>) -> Tree<V>
        ensures { Holds result (view.put [] root (λ p. None)) }
    {
        Tree {
            alloc,
            root,
            folders: BTreeMap::new(alloc),
        }
    }

    /// What it has at a path.
    pub fn get(&self, text: &[u8]) -> Option<&V>
        ensures { (g : Path → Option V) (p : Path) → Holds self.now g → AreNames p → text.now ≡ flat p → option_copied result ≡ g p }
    {
        match split(text) {
            None => self.root.as_ref(),
            Some(at) => self.look(at.folder, at.name),
        }
    }

    fn look(&self, folder: &[u8], name: &[u8]) -> Option<&V>
        ensures { option_copied result ≡ look self.now folder.now name.now }
    {
        match self.folders.get(folder) {
            Some(names) => names.get(name),
            None => None,
        }
    }

    /// It has a new value at a path. Where it lacks memory for that, it isn't of use any more.
    pub fn put(&mut self, place: &Place, value: V) -> Result<(), NoMemory>
        ensures { OnOk result ((g : Path → Option V) → Holds self.old g → Holds self.new (view.put place.now (Some value) g)) }
    {
        match split(place.text()) {
            None => {
                self.root = Some(value);
                Ok(())
            }
            Some(at) => self.put_in(at.folder, at.name, value),
        }
    }

    fn put_in(&mut self, folder: &[u8], name: &[u8], value: V) -> Result<(), NoMemory>
        requires { IsName name.now }
        ensures root { self.new.root ≡ self.old.root }
        ensures below { OnOk result ((t x : List ℕ) → look self.new t x ≡ (if same_name folder.now t && same_name name.now x then Some value else look self.old t x)) }
    {
        let mut names = self.take(folder);
        names.insert(self.alloc, name, value)?;
        self.folders
            .insert(Vec::from_slice(self.alloc, folder)?, names)?;
        Ok(())
    }

    // The names of a folder, which the map has no more.
    fn take(&mut self, folder: &[u8]) -> Folder<V>
        ensures root { self.new.root ≡ self.old.root }
        ensures here { (x : List ℕ) → look_in x (Some result) ≡ look self.old folder.now x }
        ensures below { (t x : List ℕ) → look self.new t x ≡ (if same_name folder.now t then None else look self.old t x) }
    {
        match self.folders.remove(folder) {
            Some(names) => names,
            None => Folder::new(self.alloc),
        }
    }

    /// It has nothing at a path any more. Where it lacks memory for that, it isn't of use any more.
    pub fn remove(&mut self, place: &Place) -> Result<(), NoMemory>
        ensures { OnOk result ((g : Path → Option V) → Holds self.old g → Holds self.new (view.put place.now None g)) }
    {
        match split(place.text()) {
            None => {
                self.root = None;
                Ok(())
            }
            Some(at) => self.remove_in(at.folder, at.name),
        }
    }

    fn remove_in(&mut self, folder: &[u8], name: &[u8]) -> Result<(), NoMemory>
        ensures root { self.new.root ≡ self.old.root }
        ensures below { OnOk result ((t x : List ℕ) → look self.new t x ≡ (if same_name folder.now t && same_name name.now x then None else look self.old t x)) }
    {
        let mut names = self.take(folder);
        names.remove(name);
        self.folders
            .insert(Vec::from_slice(self.alloc, folder)?, names)?;
        Ok(())
    }

    /// What it has at a path, which it has no more. Where it lacks memory for that, it isn't of use any more.
    pub fn take_value(&mut self, place: &Place) -> Result<Option<V>, NoMemory>
        ensures value { IfOk result (λ o. (g : Path → Option V) → Holds self.old g → o ≡ g place.now) }
        ensures taken { OnOk result ((g : Path → Option V) → Holds self.old g → Holds self.new (view.put place.now None g)) }
    {
        match split(place.text()) {
            None => Ok(self.root.take()),
            Some(at) => self.take_in(at.folder, at.name),
        }
    }

    fn take_in(&mut self, folder: &[u8], name: &[u8]) -> Result<Option<V>, NoMemory>
        ensures value { IfOk result (λ o. o ≡ look self.old folder.now name.now) }
        ensures root { self.new.root ≡ self.old.root }
        ensures below { OnOk result ((t x : List ℕ) → look self.new t x ≡ (if same_name folder.now t && same_name name.now x then None else look self.old t x)) }
    {
        let mut names = self.take(folder);
        let value = names.remove(name);
        self.folders
            .insert(Vec::from_slice(self.alloc, folder)?, names)?;
        Ok(value)
    }

    /// It has nothing directly in a folder any more.
    pub fn clear(&mut self, folder: &Place)
        ensures { (g : Path → Option V) → Holds self.old g → Holds self.new (λ p. if is_in folder.now p then None else g p) }
    {
        self.take(folder.text());
    }

    /// Whether it has anything directly in a folder.
    pub fn has_names(&self, folder: &Place) -> bool
        ensures { (g : Path → Option V) → Holds self.now g → HasAny result g folder.now }
    {
        match self.folders.get(folder.text()) {
            Some(names) => names.has_any(),
            None => false,
        }
    }

    /// The names that it has directly in a folder, ascending.
    pub fn names_in(&self, folder: &Place) -> Result<Names, NoMemory>
        ensures { IfOk result (λ ns. (g : Path → Option V) → Holds self.now g → IsNamesIn g folder.now ns) }
    {
        match self.folders.get(folder.text()) {
            Some(names) => names.names(self.alloc),
            None => Ok(Names::new(self.alloc)),
        }
    }
}
