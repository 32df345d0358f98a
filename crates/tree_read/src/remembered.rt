//! What a walk of a tree remembers of the objects that it read.
ghost use Rattle.std.specs.Prelude.{◌≡◌, Contains, IfSome, IsTrue};
ghost use Rattle.ost_types.specs.Mode.{IsFolderMode};
ghost use Rattle.tree_read.specs.Remembered.{GainsFile, GainsMeta, GainsTree, nothing};

use ost_forms::DirTree;
use ost_types::{Csum, Meta};
use std::alloc::Global;
use std::collections::{BTreeMap, BTreeSet};
use std::marker::Model;

/// Objects that were read, by their names, so that none is read twice: folders' entries and attributes, and of files only that they
/// are as they should be. What there is no memory for isn't remembered.
#[derive(Drop, Debug)]
pub struct Remembered {
    trees: BTreeMap<Csum, DirTree>,
    metas: BTreeMap<Csum, Meta>,
    files: BTreeSet<Csum>,
}

impl Model for Remembered {
    ghost use Rattle.tree_read.specs.Remembered.{Memory, OfFolders};

    ghost Value = { Memory };

    ghost view = { λ a. record { trees = a.trees.entries; metas = a.metas.entries; files = a.files.keys } };

    ghost invariant = { λ a. OfFolders a.metas.entries };
}

impl Remembered {
    pub fn new(alloc: Global) -> Remembered
        ensures { result ≡ nothing }
    {
        Remembered {
            trees: BTreeMap::new(alloc),
            metas: BTreeMap::new(alloc),
            files: BTreeSet::new(alloc),
        }
    }

    pub fn entries(&self, tree: &Csum) -> Option<&DirTree>
        ensures { IfSome result (λ t. Contains self.now.trees (tree.now, t.now)) }
    {
        self.trees.get(tree)
    }

    pub fn attributes(&self, meta: &Csum) -> Option<&Meta>
        ensures there { IfSome result (λ m. Contains self.now.metas (meta.now, m.now)) }
        ensures folder { IfSome result (λ m. IsFolderMode m.now.mode) }
    {
        self.metas.get(meta)
    }

    pub fn has_file(&self, file: &Csum) -> bool
        ensures { IsTrue result → Contains self.now.files file.now }
    {
        self.files.contains(file)
    }

    pub fn keep_entries(&mut self, tree: Csum, entries: DirTree)
        ensures { GainsTree self.old self.new tree entries }
    {
        drop(self.trees.insert(tree, entries));
    }

    pub fn keep_attributes(&mut self, meta: Csum, attributes: Meta)
        requires { IsFolderMode attributes.mode }
        ensures { GainsMeta self.old self.new meta attributes }
    {
        drop(self.metas.insert(meta, attributes));
    }

    pub fn keep_file(&mut self, file: Csum)
        ensures { GainsFile self.old self.new file }
    {
        drop(self.files.insert(file));
    }
}
