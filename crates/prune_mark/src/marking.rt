//! What a prune keeps is found, an object a step.
ghost use Rattle.std.specs.Prelude.{◌≡◌, ◌≤◌, ◌<◌, ◌↔◌, ℕ, List, length, Contains, Some, IsTrue, OnOk, OnErr, IfOk};
ghost use Rattle.ost_types.specs.declared.object.ObjName.{ObjName};
ghost use Rattle.ost_types.specs.declared.object.ObjName.{ObjName as Name};
ghost use Rattle.fs_trait.specs.View.{Disk, View};
ghost use Rattle.fs_trait.specs.Effect.{IsQuiet};
ghost use Rattle.repo_model.specs.Objects.{Stores};
ghost use Rattle.reach.specs.Lines.{Reachable};
ghost use Rattle.reach.specs.Marking.{AreDoomed};
ghost use Rattle.reach.specs.Reach.{IsIn};
ghost use Rattle.store_check.specs.Listing.{AreAll};
ghost use Rattle.prune_mark.specs.Reads.{HasCauseOf, IsFailed};
ghost use Rattle.prune_mark.specs.Flags.{AreAscending, IsMarked};
ghost use Rattle.prune_mark.specs.Doomed.{AreUnmarked};
ghost use Rattle.prune_mark.specs.Marking.{IsFresh, IsStepped, Knows, MarksAll, OpensCommit, OpensTree, StepTells};

use crate::doomed::doomed_of;
use crate::fault::MarkFault;
use crate::flags::{is_marked, mark_entries, mark_folder, mark_parent};
use crate::links::{Links, Near};
use crate::objects::{entries_of, links_of};
use crate::roots::begin;
use fs_trait::{Fs, StepResult};
use ost_forms::DirTree;
use ost_types::{Csum, Limits, NoMemory, ObjName};
use std::alloc::Global;
use std::marker::Model;

/// Finds which objects of a store are kept by a prune (OSTree manual, `ostree prune`: what no ref leads to goes, where `--depth`
/// says how many parents of each commit are followed). A step reads at most one object, and each object is read once.
///
/// First the commits come, nearest to a root first, and then the folders. A name takes 34 bytes, a commit that is found 36 more and
/// the entries of a folder 32.
#[derive(Drop, Debug)]
pub struct Marking {
    alloc: Global,
    names: Vec<ObjName>,
    // one beside each name: up once it is marked
    flags: Vec<bool>,
    depth: u32,
    // the commits that were found; those from `next` on weren't looked into yet
    found: Vec<Near>,
    next: usize,
    // the sums of entries that were found and not looked into yet
    pending: Vec<Csum>,
}

impl Model for Marking {
    ghost use Rattle.std.specs.Prelude.{◌≡◌, ◌≤◌, length};
    ghost use Rattle.prune_mark.specs.Marking.{State};

    ghost Value = { State };

    ghost view = { λ a. record { names = a.names.items; flags = a.flags.items; depth = a.depth; found = a.found.items; next = a.next; pending = a.pending.items } };

    ghost invariant = { λ a. (length a.flags.items ≡ length a.names.items) × (a.next ≤ length a.found.items) };
}

/// What a step came to.
type Step = Result<StepResult<()>, MarkFault>;

impl Marking {
    /// Marks the roots, as far as they are among the names: all names of the store, ascending, each once. `depth` is how many
    /// parents of each root are followed.
    pub fn new(
        alloc: Global,
        names: Vec<ObjName>,
        roots: &[ObjName],
        depth: u32,
    ) -> Result<Marking, NoMemory>
        ensures fresh { IfOk result (IsFresh names.items depth) }
        ensures begun { (d : Disk) → AreAll d names.items → IfOk result (Knows d roots.now) }
    {
        let begun = begin(alloc, names.as_slice(), roots)?;
        Ok(Marking {
            alloc,
            names,
            flags: begun.flags,
            depth,
            found: begun.found,
            next: 0,
            pending: begun.pending,
        })
    }

    /// The names of all objects, ascending.
    pub fn names(&self) -> &[ObjName]
        ensures { result.now ≡ self.now.names }
    {
        self.names.as_slice()
    }

    /// Whether the object is marked; once all is done, whether a prune keeps it.
    pub fn marked(&self, name: &ObjName) -> bool
        ensures { AreAscending self.now.names → (IsTrue result ↔ IsMarked self.now.names self.now.flags name.now) }
    {
        is_marked(self.names.as_slice(), self.flags.as_slice(), name)
    }

    /// The names without a mark: the commits first, and then the others, each part ascending. Once all is done, what a prune removes.
    pub fn doomed(&self) -> Result<Vec<ObjName>, NoMemory>
        ensures order { IfOk result (λ v. AreUnmarked self.now.names self.now.flags v.items) }
        ensures exact { IfOk result (λ v. AreAscending self.now.names → (o : Name) → Contains v.items o ↔ (Contains self.now.names o × (IsMarked self.now.names self.now.flags o → ⊥))) }
        ensures removes { (d : Disk) (roots : List Name) → AreAll d self.now.names → ((o : Name) → Contains self.now.names o → IsIn (Stores d) o) → MarksAll d roots self.now → IfOk result (λ v. AreDoomed (Stores d) (Reachable (Stores d) (Contains roots) self.now.depth) (Contains v.items)) }
    {
        doomed_of(self.alloc, self.names.as_slice(), self.flags.as_slice())
    }

    /// Looks into the next object. After an error the marking is unchanged, so that the step may be tried again.
    pub fn step<F: Fs>(&mut self, fs: &mut F, limits: &Limits) -> Step
        ensures told { (v : View) (roots : List ObjName) → F.view fs.old ≡ Some v → Knows v.now roots self.old → StepTells v.now limits.now.content roots self.old result self.new }
        ensures stepped { IsStepped self.old result self.new }
        ensures quiet { IsQuiet (F.clock fs.old) (F.clock fs.new) (F.was fs.old) (F.was fs.new) (F.view fs.old) (F.view fs.new) }
        ensures keeps_room { F.spare fs.old ≤ F.spare fs.new }
        ensures cause { HasCauseOf (F.faults fs.old) (F.faults fs.new) (IsFailed result) }
    {
        if self.next < self.found.len() {
            self.look_into_commit(fs, limits)
        } else {
            self.look_into_tree(fs, limits)
        }
    }

    fn look_into_commit<F: Fs>(&mut self, fs: &mut F, limits: &Limits) -> Step
        requires { self.old.next < length self.old.found }
        ensures told { (v : View) (roots : List ObjName) → F.view fs.old ≡ Some v → Knows v.now roots self.old → StepTells v.now limits.now.content roots self.old result self.new }
        ensures stepped { IsStepped self.old result self.new }
        ensures quiet { IsQuiet (F.clock fs.old) (F.clock fs.new) (F.was fs.old) (F.was fs.new) (F.view fs.old) (F.view fs.new) }
        ensures keeps_room { F.spare fs.old ≤ F.spare fs.new }
        ensures cause { HasCauseOf (F.faults fs.old) (F.faults fs.new) (IsFailed result) }
    {
        let near = self.found[self.next];
        match links_of(self.alloc, fs, &near.commit, limits) {
            Ok(links) => {
                self.open_commit(near, links)?;
                Ok(StepResult::More)
            }
            Err(fault) => Err(fault),
        }
    }

    fn open_commit(&mut self, near: Near, links: Links) -> Result<(), NoMemory>
        requires { self.old.next < length self.old.found }
        ensures ok { OnOk result (OpensCommit self.old near links self.new) }
        ensures err { OnErr result (self.new ≡ self.old) }
    {
        self.pending.reserve(1)?;
        self.found.reserve(1)?;
        mark_folder(
            self.names.as_slice(),
            &mut self.flags,
            &mut self.pending,
            links.tree,
            links.meta,
        );
        mark_parent(
            self.names.as_slice(),
            &mut self.flags,
            &mut self.found,
            links.parent,
            near.distance,
            self.depth,
        );
        self.next += 1;
        Ok(())
    }

    fn look_into_tree<F: Fs>(&mut self, fs: &mut F, limits: &Limits) -> Step
        requires { length self.old.found ≤ self.old.next }
        ensures told { (v : View) (roots : List ObjName) → F.view fs.old ≡ Some v → Knows v.now roots self.old → StepTells v.now limits.now.content roots self.old result self.new }
        ensures stepped { IsStepped self.old result self.new }
        ensures quiet { IsQuiet (F.clock fs.old) (F.clock fs.new) (F.was fs.old) (F.was fs.new) (F.view fs.old) (F.view fs.new) }
        ensures keeps_room { F.spare fs.old ≤ F.spare fs.new }
        ensures cause { HasCauseOf (F.faults fs.old) (F.faults fs.new) (IsFailed result) }
    {
        let Some((tree, _)) = self.pending.split_last() else {
            return Ok(StepResult::Done(()));
        };
        let tree = *tree;
        match entries_of(self.alloc, fs, &tree, limits) {
            Ok(entries) => {
                self.open_tree(&entries)?;
                Ok(StepResult::More)
            }
            Err(fault) => Err(fault),
        }
    }

    fn open_tree(&mut self, entries: &DirTree) -> Result<(), NoMemory>
        requires { 0 < length self.old.pending }
        ensures ok { OnOk result (OpensTree self.old (record { files = entries.now.files; folders = entries.now.folders }) self.new) }
        ensures err { OnErr result (self.new ≡ self.old) }
    {
        self.pending.reserve(entries.folders.as_slice().len())?;
        let _tree = self.pending.pop();
        mark_entries(
            self.names.as_slice(),
            &mut self.flags,
            &mut self.pending,
            entries,
        );
        Ok(())
    }
}
