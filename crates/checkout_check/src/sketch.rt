//! A tree that is made pair by pair, so that it can be checked out.
ghost use Rattle.std.specs.Prelude.{◌≡◌, ◌∷◌, ◌↔◌, [], Some, IfOk, IfSome, IsTrue, OnErr, if◌then◌else◌};
ghost use Rattle.ost_types.specs.Mode.{IsFolderMode};
ghost use Rattle.ost_types.specs.PathMap.{IsNode};
ghost use Rattle.ost_types.specs.Path.{under};
ghost use Rattle.ost_types.specs.declared.node.NodeName.TheVariants as nodes;
ghost use Rattle.fs_trait.specs.View.{View};
ghost use Rattle.fs_trait.specs.Effect.{HasCause};
ghost use Rattle.checkout_check.specs.Sketches.{Begins, CanBegin, Sketched, Takes, with_pair};

use crate::looks::{is_folder, leaves_are_there};
use checkout::CheckoutTask;
use fs_trait::{Fs, FsErr};
use ost_types::{FsPath, Meta, Name, NoMemory, NodeName, PathMap};
use std::alloc::Global;
use std::marker::Model;

/// A tree, and the name and folder under which it is to be checked out.
#[derive(Drop, Debug)]
pub struct Sketch {
    home: FsPath,
    name: Name,
    into: FsPath,
    tree: PathMap,
}

impl Model for Sketch {
    ghost use Rattle.std.specs.Prelude.{◌≡◌};
    ghost use Rattle.ost_types.specs.Path.{under};
    ghost use Rattle.checkout.specs.CheckoutWork.{IsPlaced};
    ghost use Rattle.checkout_check.specs.Sketches.{Sketched};

    ghost Value = { Sketched };

    ghost view = { λ a. record { home = a.home; name = a.name; tree = a.tree } };

    ghost invariant = { λ a. (a.into ≡ under a.home a.name) × IsPlaced a.into a.tree };
}

impl Sketch {
    /// The root alone; None where the folder can't hold the name.
    pub fn new(
        alloc: Global,
        home: FsPath,
        name: Name,
        meta: Meta,
    ) -> Result<Option<Sketch>, NoMemory>
        requires { IsFolderMode meta.mode }
        ensures { IfOk result (λ s. IfSome s (λ x. x ≡ record { home = home; name = name; tree = ([], nodes.Folder meta) ∷ [] })) }
    {
        if !home.can_hold(&name) {
            return Ok(None);
        }
        let into = home.child(&name)?;
        let mut tree = PathMap::new(alloc);
        tree.push(FsPath::root(alloc), NodeName::Folder(meta))?;
        Ok(Some(Sketch {
            home,
            name,
            into,
            tree,
        }))
    }

    /// Adds the node under this name in a folder of the tree, where that is the next path and fits. Tells whether it did.
    pub fn add(&mut self, folder: &FsPath, name: &Name, node: NodeName) -> Result<bool, NoMemory>
        requires { IsNode node }
        ensures added { IfOk result (λ b. self.new ≡ (if b then with_pair (under folder.now name.now) node self.old else self.old)) }
        ensures err { OnErr result (self.new ≡ self.old) }
    {
        if !folder.can_hold(name) {
            return Ok(false);
        }
        let path = folder.child(name)?;
        if !self.takes(folder, &path) {
            return Ok(false);
        }
        self.tree.push(path, node)?;
        Ok(true)
    }

    // whether it is the next path, lies in a folder of the map, and fits
    fn takes(&self, folder: &FsPath, path: &FsPath) -> bool
        ensures { IsTrue result → Takes self.now folder.now path.now }
    {
        match self.tree.get(folder) {
            Some(NodeName::Folder(_)) => self.tree.fits(path) && self.into.can_join(path),
            _ => false,
        }
    }

    /// The task that checks the tree out; None where a checkout can't begin.
    pub fn begin<F: Fs>(self, alloc: Global, fs: &mut F) -> Result<Option<CheckoutTask>, FsErr>
        ensures told { (v : View) → F.view fs.old ≡ Some v → IfOk result (λ t. Begins self v.now t) }
        ensures same { F.view fs.new ≡ F.view fs.old }
        ensures cause { HasCause (F.faults fs.old) (F.faults fs.new) result }
    {
        if !self.can_begin(alloc, fs)? {
            return Ok(None);
        }
        let Sketch { into, tree, .. } = self;
        Ok(Some(CheckoutTask::new(alloc, into, tree)))
    }

    fn can_begin<F: Fs>(&self, alloc: Global, fs: &mut F) -> Result<bool, FsErr>
        ensures told { (v : View) → F.view fs.old ≡ Some v → IfOk result (λ b. IsTrue b ↔ CanBegin self.now v.now) }
        ensures same { F.view fs.new ≡ F.view fs.old }
        ensures cause { HasCause (F.faults fs.old) (F.faults fs.new) result }
    {
        if !is_folder(fs, &self.home)? {
            return Ok(false);
        }
        leaves_are_there(alloc, fs, &self.tree)
    }
}
