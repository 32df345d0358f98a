//! A walk of the tree of a commit, an object a step.
ghost use Rattle.std.specs.Prelude.{◌≡◌, ◌≤◌, [], true, false, Contains, Some, Err, OnOk, OnErr, IfOk, IfSome, MatchOption};
ghost use Rattle.fs_trait.specs.View.{View};
ghost use Rattle.fs_trait.specs.Effect.{HasCause, IsQuiet};
ghost use Rattle.fs_trait.specs.declared.task.Need.TheVariants as need;
ghost use Rattle.fs_trait.specs.declared.task.StepResult.TheVariants.{Done};
ghost use Rattle.ost_types.specs.Mode.{IsFolderMode};
ghost use Rattle.ost_types.specs.PathMap.{IsNode};
ghost use Rattle.ost_types.specs.declared.object.Kind.TheVariants as kinds;
ghost use Rattle.repo_model.specs.Objects.{Has};
ghost use Rattle.repo_model.specs.Trees.{name_of};
ghost use Rattle.tree_read.specs.declared.fault.TreeFault.TheVariants as faults;
ghost use Rattle.tree_read.specs.declared.item.Named.TheVariants as named;
ghost use Rattle.tree_read.specs.Looks.{Looks};
ghost use Rattle.tree_read.specs.Reading.{AreShort, Fits, IsFarBelow, IsNext, IsOpened, IsSoFar, IsStepped, Knows, ListsBelow, Opens, Takes, TellsIn, begun_at, left_of, unread, weight, with_memory};
ghost use Rattle.tree_read.specs.Remembered.{GainsFile, GainsMeta, GainsTree, entries_in};

use crate::at_file::AtFile;
use crate::children::{children_of, is_short};
use crate::fault::TreeFault;
use crate::item::{Item, Named};
use crate::looked::Looked;
use crate::objects::{look_at_attributes, look_at_commit, look_at_entries};
use crate::remembered::Remembered;
use fs_trait::{Fs, FsErr, Need, StepResult};
use ost_forms::DirTree;
use ost_types::{Csum, FsPath, Kind, Limits, Meta, NoMemory, NodeName, ObjName, PathMap, TryCopy};
use std::alloc::Global;
use std::marker::Model;

/// A walk of the tree of a commit. A step looks at one object at most, and at none that it remembers; the paths come in their order.
#[derive(Drop, Debug)]
pub struct TreeWalk {
    alloc: Global,
    commit: Csum,
    limits: Limits,
    // the commit was read
    begun: bool,
    // what wasn't read yet, the next of it last
    pending: Vec<Item>,
    found: PathMap,
    remembered: Remembered,
}

impl Model for TreeWalk {
    ghost use Rattle.std.specs.Prelude.{◌≡◌, [], false};
    ghost use Rattle.tree_read.specs.Line.{InLine};
    ghost use Rattle.tree_read.specs.Reading.{Reading};
    ghost use Rattle.tree_read.specs.Remembered.{nothing};

    ghost Value = { Reading };

    ghost view = { λ a. record { commit = a.commit; limits = a.limits; begun = a.begun; pending = a.pending.items; found = a.found; remembered = a.remembered } };

    ghost invariant = { λ a. InLine a.found a.pending.items × (a.begun ≡ false → (a.pending.items ≡ []) × (a.found ≡ []) × (a.remembered ≡ nothing)) };
}

/// What a step came to.
type Step = Result<StepResult<Result<(), TreeFault>>, FsErr>;

impl TreeWalk {
    pub fn new(alloc: Global, commit: Csum, limits: Limits) -> TreeWalk
        ensures { result ≡ unread commit limits }
    {
        TreeWalk {
            alloc,
            commit,
            limits,
            begun: false,
            pending: Vec::new(alloc),
            found: PathMap::new(alloc),
            remembered: Remembered::new(alloc),
        }
    }

    /// The paths that were read so far; after `Done(Ok(()))` the tree.
    pub fn found(&self) -> &PathMap
        ensures { result.now ≡ self.now.found }
    {
        &self.found
    }

    /// The same, for good.
    pub fn into_found(self) -> PathMap
        ensures { result ≡ self.found }
    {
        self.found
    }

    /// The lock under which the next step must stand: none, since it changes nothing.
    pub fn needs(&self) -> Need
        ensures { result ≡ need.Nothing }
    {
        Need::Nothing
    }

    /// At most so many steps go on.
    pub fn left(&self) -> u128
        ensures { result ≡ left_of self.now }
    {
        let paths = self.limits.paths as u128;
        if self.begun {
            2 * paths.saturating_sub(self.found.len() as u128) + self.next_weight()
        } else {
            2 * paths + 2
        }
    }

    /// How many objects are left at the next path.
    fn next_weight(&self) -> u128
        ensures value { result ≡ weight self.now.pending }
        ensures small { result ≤ 1 }
    {
        let Some((next, _)) = self.pending.split_last() else {
            return 0;
        };
        match next.named {
            Named::Attributes(_) => 0,
            _ => 1,
        }
    }

    /// Reads the next object. It is done when all was read, or with the first object that is missing or damaged. After an
    /// error the task is unchanged, so that the step may be tried again.
    pub fn step<L: AtFile, F: Fs>(&mut self, fs: &mut F) -> Step
        ensures told { (v : View) → F.view fs.old ≡ Some v → IsSoFar (L.store v.now) self.old → TellsIn (L.store v.now) v.now self.old result self.new }
        ensures stepped { IsStepped self.old result self.new }
        ensures quiet { IsQuiet (F.clock fs.old) (F.clock fs.new) (F.was fs.old) (F.was fs.new) (F.view fs.old) (F.view fs.new) }
        ensures keeps_room { F.spare fs.old ≤ F.spare fs.new }
        ensures cause { HasCause (F.faults fs.old) (F.faults fs.new) result }
    {
        if self.begun {
            self.read_next::<L, F>(fs)
        } else {
            self.read_commit::<L, F>(fs)
        }
    }

    fn read_commit<L: AtFile, F: Fs>(&mut self, fs: &mut F) -> Step
        requires { self.old.begun ≡ false }
        ensures told { (v : View) → F.view fs.old ≡ Some v → TellsIn (L.store v.now) v.now self.old result self.new }
        ensures stepped { IsStepped self.old result self.new }
        ensures quiet { IsQuiet (F.clock fs.old) (F.clock fs.new) (F.was fs.old) (F.was fs.new) (F.view fs.old) (F.view fs.new) }
        ensures keeps_room { F.spare fs.old ≤ F.spare fs.new }
        ensures cause { HasCause (F.faults fs.old) (F.faults fs.new) result }
    {
        match look_at_commit(self.alloc, fs, &self.commit, &self.limits)? {
            Looked::Here(commit) => {
                self.begin(commit.tree, commit.meta)?;
                Ok(StepResult::More)
            }
            Looked::Absent => Ok(absent(self.commit, Kind::Commit)),
            Looked::Damaged => Ok(damaged(self.commit, Kind::Commit)),
        }
    }

    fn begin(&mut self, tree: Csum, meta: Csum) -> Result<(), NoMemory>
        requires { self.old.begun ≡ false }
        ensures ok { OnOk result (self.new ≡ begun_at self.old tree meta) }
        ensures err { OnErr result (self.new ≡ self.old) }
    {
        self.pending.push(Item {
            path: FsPath::root(self.alloc),
            named: Named::Folder { tree, meta },
            owner: tree,
        })?;
        self.begun = true;
        Ok(())
    }

    fn read_next<L: AtFile, F: Fs>(&mut self, fs: &mut F) -> Step
        requires { self.old.begun ≡ true }
        ensures told { (v : View) → F.view fs.old ≡ Some v → IsSoFar (L.store v.now) self.old → TellsIn (L.store v.now) v.now self.old result self.new }
        ensures stepped { IsStepped self.old result self.new }
        ensures quiet { IsQuiet (F.clock fs.old) (F.clock fs.new) (F.was fs.old) (F.was fs.new) (F.view fs.old) (F.view fs.new) }
        ensures keeps_room { F.spare fs.old ≤ F.spare fs.new }
        ensures cause { HasCause (F.faults fs.old) (F.faults fs.new) result }
    {
        let Some((next, _)) = self.pending.split_last() else {
            return Ok(StepResult::Done(Ok(())));
        };
        let owner = next.owner;
        let named = next.named;
        if self.found.len() as u64 >= self.limits.paths as u64 {
            return Ok(damaged(owner, Kind::DirTree));
        }
        match named {
            Named::Folder { tree, meta } => self.read_entries::<L, F>(fs, owner, tree, meta),
            Named::Attributes(meta) => self.read_attributes::<L, F>(fs, owner, meta),
            Named::File(file) => self.read_file::<L, F>(fs, owner, file),
        }
    }

    fn read_entries<L: AtFile, F: Fs>(
        &mut self,
        fs: &mut F,
        owner: Csum,
        tree: Csum,
        meta: Csum,
    ) -> Step
        requires { IsNext self.old (named.Folder tree meta) owner }
        ensures told { (v : View) → F.view fs.old ≡ Some v → IsSoFar (L.store v.now) self.old → TellsIn (L.store v.now) v.now self.old result self.new }
        ensures stepped { IsStepped self.old result self.new }
        ensures quiet { IsQuiet (F.clock fs.old) (F.clock fs.new) (F.was fs.old) (F.was fs.new) (F.view fs.old) (F.view fs.new) }
        ensures keeps_room { F.spare fs.old ≤ F.spare fs.new }
        ensures cause { HasCause (F.faults fs.old) (F.faults fs.new) result }
    {
        let Some(entries) = self.remembered.entries(&tree) else {
            return self.read_new_entries::<L, F>(fs, owner, tree, meta);
        };
        match self.below(owner, tree, meta, entries)? {
            Some(below) => {
                self.replace_next(below)?;
                Ok(StepResult::More)
            }
            None => Ok(damaged(tree, Kind::DirTree)),
        }
    }

    fn read_new_entries<L: AtFile, F: Fs>(
        &mut self,
        fs: &mut F,
        owner: Csum,
        tree: Csum,
        meta: Csum,
    ) -> Step
        requires { IsNext self.old (named.Folder tree meta) owner }
        ensures told { (v : View) → F.view fs.old ≡ Some v → IsSoFar (L.store v.now) self.old → TellsIn (L.store v.now) v.now self.old result self.new }
        ensures stepped { IsStepped self.old result self.new }
        ensures quiet { IsQuiet (F.clock fs.old) (F.clock fs.new) (F.was fs.old) (F.was fs.new) (F.view fs.old) (F.view fs.new) }
        ensures keeps_room { F.spare fs.old ≤ F.spare fs.new }
        ensures cause { HasCause (F.faults fs.old) (F.faults fs.new) result }
    {
        match look_at_entries(self.alloc, fs, &tree, &self.limits)? {
            Looked::Here(entries) => Ok(self.open(owner, tree, meta, entries)?),
            Looked::Absent => Ok(absent(tree, Kind::DirTree)),
            Looked::Damaged => Ok(damaged(tree, Kind::DirTree)),
        }
    }

    /// The folder's entries come in its place, and then its attributes as the next.
    fn open(
        &mut self,
        owner: Csum,
        tree: Csum,
        meta: Csum,
        entries: DirTree,
    ) -> Result<StepResult<Result<(), TreeFault>>, NoMemory>
        requires { IsNext self.old (named.Folder tree meta) owner }
        ensures { IsOpened self.old owner tree meta entries result self.new }
    {
        let _pairs = self.found.as_slice();
        match self.below(owner, tree, meta, &entries)? {
            Some(below) => {
                self.replace_next(below)?;
                self.keep_entries(tree, entries);
                Ok(StepResult::More)
            }
            None => Ok(damaged(tree, Kind::DirTree)),
        }
    }

    /// What comes in the place of the next item; None where one of the paths is too long.
    fn below(
        &self,
        owner: Csum,
        tree: Csum,
        meta: Csum,
        entries: &DirTree,
    ) -> Result<Option<Vec<Item>>, NoMemory>
        requires { IsNext self.now (named.Folder tree meta) owner }
        ensures { IfOk result (λ found. MatchOption found (IsFarBelow self.now (entries_in entries.now)) (λ below. ListsBelow self.now owner tree meta (entries_in entries.now) below.items)) }
    {
        let Some((next, _)) = self.pending.split_last() else {
            return Ok(None);
        };
        let mut below = children_of(self.alloc, &next.path, &tree, entries)?;
        if are_short(&below) {
            below.push(Item {
                path: next.path.copy()?,
                named: Named::Attributes(meta),
                owner,
            })?;
            Ok(Some(below))
        } else {
            Ok(None)
        }
    }

    fn replace_next(&mut self, below: Vec<Item>) -> Result<(), NoMemory>
        requires { Fits self.old below.items }
        ensures ok { OnOk result (Opens self.old below.items self.old.remembered self.new) }
        ensures err { OnErr result (self.new ≡ self.old) }
    {
        let mut below = below;
        self.pending.reserve(below.len())?;
        let _next = self.pending.pop();
        self.pending.append(&mut below)?;
        Ok(())
    }

    fn read_attributes<L: AtFile, F: Fs>(&mut self, fs: &mut F, _owner: Csum, meta: Csum) -> Step
        requires { IsNext self.old (named.Attributes meta) _owner }
        ensures told { (v : View) → F.view fs.old ≡ Some v → IsSoFar (L.store v.now) self.old → TellsIn (L.store v.now) v.now self.old result self.new }
        ensures stepped { IsStepped self.old result self.new }
        ensures quiet { IsQuiet (F.clock fs.old) (F.clock fs.new) (F.was fs.old) (F.was fs.new) (F.view fs.old) (F.view fs.new) }
        ensures keeps_room { F.spare fs.old ≤ F.spare fs.new }
        ensures cause { HasCause (F.faults fs.old) (F.faults fs.new) result }
    {
        let Some(attributes) = self.recalled_attributes(&meta)? else {
            return self.read_new_attributes::<L, F>(fs, _owner, meta);
        };
        self.take(NodeName::Folder(attributes))?;
        Ok(StepResult::More)
    }

    /// A copy of the attributes that are remembered under the name.
    fn recalled_attributes(&self, meta: &Csum) -> Result<Option<Meta>, NoMemory>
        ensures there { IfOk result (λ o. IfSome o (λ m. Contains self.now.remembered.metas (meta.now, m))) }
        ensures folder { IfOk result (λ o. IfSome o (λ m. IsFolderMode m.mode)) }
    {
        match self.remembered.attributes(meta) {
            Some(attributes) => Ok(Some(attributes.copy()?)),
            None => Ok(None),
        }
    }

    fn read_new_attributes<L: AtFile, F: Fs>(
        &mut self,
        fs: &mut F,
        _owner: Csum,
        meta: Csum,
    ) -> Step
        requires { IsNext self.old (named.Attributes meta) _owner }
        ensures told { (v : View) → F.view fs.old ≡ Some v → IsSoFar (L.store v.now) self.old → TellsIn (L.store v.now) v.now self.old result self.new }
        ensures stepped { IsStepped self.old result self.new }
        ensures quiet { IsQuiet (F.clock fs.old) (F.clock fs.new) (F.was fs.old) (F.was fs.new) (F.view fs.old) (F.view fs.new) }
        ensures keeps_room { F.spare fs.old ≤ F.spare fs.new }
        ensures cause { HasCause (F.faults fs.old) (F.faults fs.new) result }
    {
        match look_at_attributes(self.alloc, fs, &meta, &self.limits)? {
            Looked::Here(attributes) => {
                let copy = attributes.copy()?;
                self.take(NodeName::Folder(attributes))?;
                self.keep_attributes(meta, copy);
                Ok(StepResult::More)
            }
            Looked::Absent => Ok(absent(meta, Kind::DirMeta)),
            Looked::Damaged => Ok(damaged(meta, Kind::DirMeta)),
        }
    }

    fn read_file<L: AtFile, F: Fs>(&mut self, fs: &mut F, _owner: Csum, file: Csum) -> Step
        requires { IsNext self.old (named.File file) _owner }
        ensures told { (v : View) → F.view fs.old ≡ Some v → IsSoFar (L.store v.now) self.old → TellsIn (L.store v.now) v.now self.old result self.new }
        ensures stepped { IsStepped self.old result self.new }
        ensures quiet { IsQuiet (F.clock fs.old) (F.clock fs.new) (F.was fs.old) (F.was fs.new) (F.view fs.old) (F.view fs.new) }
        ensures keeps_room { F.spare fs.old ≤ F.spare fs.new }
        ensures cause { HasCause (F.faults fs.old) (F.faults fs.new) result }
    {
        match self.look_at_file::<L, F>(fs, &file)? {
            Looked::Here(()) => {
                self.take(NodeName::Leaf(file))?;
                self.keep_file(file);
                Ok(StepResult::More)
            }
            Looked::Absent => Ok(absent(file, Kind::File)),
            Looked::Damaged => Ok(damaged(file, Kind::File)),
        }
    }

    /// A file that is remembered isn't looked at again.
    fn look_at_file<L: AtFile, F: Fs>(&self, fs: &mut F, file: &Csum) -> Result<Looked<()>, FsErr>
        ensures told { (v : View) → F.view fs.old ≡ Some v → Knows (L.store v.now) self.now → Looks v.now self.now.limits.content (name_of kinds.File file.now) (λ _. Has (L.store v.now) self.now.limits.content (name_of kinds.File file.now)) result }
        ensures quiet { IsQuiet (F.clock fs.old) (F.clock fs.new) (F.was fs.old) (F.was fs.new) (F.view fs.old) (F.view fs.new) }
        ensures keeps_room { F.spare fs.old ≤ F.spare fs.new }
        ensures cause { HasCause (F.faults fs.old) (F.faults fs.new) result }
    {
        if self.remembered.has_file(file) {
            Ok(Looked::Here(()))
        } else {
            L::look(self.alloc, fs, file, &self.limits)
        }
    }

    fn keep_entries(&mut self, tree: Csum, entries: DirTree)
        requires { self.old.begun ≡ true }
        ensures rest { self.new ≡ with_memory self.old self.new.remembered }
        ensures gains { GainsTree self.old.remembered self.new.remembered tree entries }
    {
        self.remembered.keep_entries(tree, entries);
    }

    fn keep_attributes(&mut self, meta: Csum, attributes: Meta)
        requires begun { self.old.begun ≡ true }
        requires folder { IsFolderMode attributes.mode }
        ensures rest { self.new ≡ with_memory self.old self.new.remembered }
        ensures gains { GainsMeta self.old.remembered self.new.remembered meta attributes }
    {
        self.remembered.keep_attributes(meta, attributes);
    }

    fn keep_file(&mut self, file: Csum)
        requires { self.old.begun ≡ true }
        ensures rest { self.new ≡ with_memory self.old self.new.remembered }
        ensures gains { GainsFile self.old.remembered self.new.remembered file }
    {
        self.remembered.keep_file(file);
    }

    /// The path of the next item shows this node.
    fn take(&mut self, node: NodeName) -> Result<(), NoMemory>
        requires { IsNode node }
        ensures ok { OnOk result (Takes self.old node self.old.remembered self.new) }
        ensures err { OnErr result (self.new ≡ self.old) }
    {
        let _pairs = self.found.as_slice();
        let Some((next, _)) = self.pending.split_last() else {
            return Ok(());
        };
        self.found.push(next.path.copy()?, node)?;
        let _next = self.pending.pop();
        Ok(())
    }
}

/// Whether the path of each has at most 64 names and 1,024 bytes.
pub fn are_short(items: &[Item]) -> bool
    ensures { AreShort items.now result }
{
    for item in items {
        if !is_short(&item.path) {
            return false;
        }
    }
    true
}

fn absent(csum: Csum, kind: Kind) -> StepResult<Result<(), TreeFault>>
    ensures { result ≡ Done (Err (faults.Absent (name_of kind csum))) }
{
    StepResult::Done(Err(TreeFault::Absent(ObjName { csum, kind })))
}

fn damaged(csum: Csum, kind: Kind) -> StepResult<Result<(), TreeFault>>
    ensures { result ≡ Done (Err (faults.Damaged (name_of kind csum))) }
{
    StepResult::Done(Err(TreeFault::Damaged(ObjName { csum, kind })))
}
