ghost use Rattle.std.specs.Prelude.{◌≡◌, ◌≢◌, ◌≤◌, ◌+◌, ◌-◌, ◌^◌, ◌<◌, length, Some, None, MatchOption, drop, slice_index_or};
ghost use Rattle.ost_types.specs.Path.{AreNames};
ghost use Rattle.ost_types.specs.declared.limits.Limits.{Limits};
ghost use Rattle.tree_build.specs.Items.{AreItems, AreTyped, IsLeastBad, IsTree, IsWide};
ghost use Rattle.tree_build.specs.Objects.{work, root_of};
ghost use Rattle.tree_build.specs.Makeable.{AreMakeable};
ghost use Rattle.tree_build.specs.Building.{Gives};

use crate::file::give_file;
use crate::folder::{give_attributes, give_entries};
use crate::paths::{first_bad, is_folder, starts_at_root};
use crate::progress::Progress;
use crate::sums::Sums;
use ost_forms::TreeItem;
use ost_objects::Checked;
use ost_types::{Csum, FsPath, Limits, Meta, NoMemory};
use std::alloc::Global;
use std::marker::Model;

/// The objects of a tree that is to be committed. Each call of `next` makes one, and no other is held.
#[derive(Drop, Debug)]
pub struct TreeBuild {
    alloc: Global,
    items: Vec<TreeItem>,
    limits: Limits,
    root: FsPath,
    total: u64,
    progress: Progress,
}

impl Model for TreeBuild {
    ghost use Rattle.tree_build.specs.Building.{Building, IsBuilding};

    ghost Value = { Building };

    ghost view = { λ a. record { items = a.items.items; limits = a.limits; done = a.progress.done } };

    ghost invariant = { λ a. IsBuilding a.items.items a.limits a.root a.total a.progress };
}

impl TreeBuild {
    pub fn new(alloc: Global, items: Vec<TreeItem>, limits: Limits) -> TreeBuild
        requires items { AreItems items.items }
        requires makeable { AreMakeable limits items.items }
        ensures value { result ≡ record { items = items.items; limits = limits; done = 0 } }
        ensures typed { AreTyped items.items }
    {
        let total = count_objects(&items);
        let progress = Progress {
            at: items.len(),
            made: Vec::new(alloc),
            half: None,
            done: 0,
        };
        TreeBuild {
            alloc,
            items,
            limits,
            root: FsPath::root(alloc),
            total,
            progress,
        }
    }

    /// The least path by which the items are no tree: `/` where no folder stands there, or one that lies in no folder of them.
    pub fn bad_path(&self) -> Option<&FsPath>
        ensures { MatchOption result (IsTree self.now.items) (λ p. IsLeastBad self.now.items p.now) }
    {
        if starts_at_root(&self.items) {
            first_bad(&self.items)
        } else {
            Some(&self.root)
        }
    }

    /// The next object, or None where all were given. A folder's comes behind those of what lies in it, its entries before its
    /// attributes. Where memory lacks, nothing changes.
    pub fn next(&mut self) -> Result<Option<Checked>, NoMemory>
        requires { IsTree self.old.items }
        ensures { Gives self.old self.new result }
    {
        let alloc = self.alloc;
        if self.progress.half.is_some() {
            return Ok(Some(give_attributes(alloc, &self.items, &self.limits, &mut self.progress)?));
        }
        if self.progress.at == 0 {
            return Ok(None);
        }
        let object = if is_folder(&self.items[self.progress.at - 1]) {
            give_entries(alloc, &self.items, &self.limits, &mut self.progress)?
        } else {
            give_file(alloc, &self.items, &self.limits, &mut self.progress)?
        };
        Ok(Some(object))
    }

    /// The names of the root's entries and attributes, once all objects were given.
    pub fn root(&self) -> Option<(Csum, Csum)>
        requires { IsTree self.now.items }
        ensures given { self.now.done ≡ length (work self.now.items) → result ≡ Some (root_of self.now.items) }
        ensures early { self.now.done < length (work self.now.items) → result ≡ None }
    {
        if self.progress.done < self.total {
            return None;
        }
        match self.progress.made.last() {
            Some(done) => match done.sums {
                Sums::Folder { tree, meta } => Some((tree, meta)),
                Sums::File(_) => None,
            },
            None => None,
        }
    }

    /// How many objects are still to come.
    pub fn left(&self) -> u64
        ensures value { result ≡ length (work self.now.items) - self.now.done }
        ensures within { self.now.done ≤ length (work self.now.items) }
    {
        self.total - self.progress.done
    }
}

/// How many objects the items have.
fn count_objects(items: &[TreeItem]) -> u64
    requires { length items.now < 2 ^ 32 }
    ensures count { result ≡ length (work items.now) }
    ensures typed { AreTyped items.now }
{
    let mut count = 0;
    let mut at = items.len();
    while at > 0 {
        at -= 1;
        count += count_of(&items[at]);
    }
    count
}

/// A folder has two objects, and a file one.
fn count_of(item: &TreeItem) -> u64
    ensures folder { item.now.body ≡ None → result ≡ 2 }
    ensures file { item.now.body ≢ None → result ≡ 1 }
    ensures names { AreNames item.now.path }
    ensures numbers { IsWide item.now.meta }
{
    let _names = item.path.names();
    numbers_of(&item.meta);
    if is_folder(item) { 2 } else { 1 }
}

/// The numbers of attributes have 32 bits.
pub(crate) fn numbers_of(meta: &Meta)
    ensures { IsWide meta.now }
{
    let _uid = meta.uid;
    let _gid = meta.gid;
    let _mode = meta.mode;
}
