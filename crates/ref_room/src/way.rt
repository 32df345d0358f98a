ghost use Rattle.std.specs.Prelude.{◌≡◌, ◌⊎◌, ◌≤◌, ◌<◌, ◌+◌, ◌-◌, nat_lt, ℕ, Option, Some, OnOk, IfOk, IfErr, IsErrOf, length, if◌then◌else◌};
ghost use Rattle.ost_types.specs.Path.{under};
ghost use Rattle.fs_trait.specs.View.{View};
ghost use Rattle.fs_trait.specs.Image.{Told};
ghost use Rattle.fs_trait.specs.declared.types.FsErr.TheVariants as err;
ghost use Rattle.fs_trait.specs.Effect.{Elapses, HasCause, OfPlacing};
ghost use Rattle.fs_trait.specs.Change.{Writes};
ghost use Rattle.repo_layout.specs.RefName.{IsRefName};
ghost use Rattle.repo_layout.specs.Paths.{ref_path};
ghost use Rattle.ref_room.specs.declared.way.Leg.TheVariants as leg;
ghost use Rattle.ref_room.specs.Clash.{ref_folder, way_to};
ghost use Rattle.ref_room.specs.Turns.{OnMore};
ghost use Rattle.ref_room.specs.Way.{Walked, Needs, NoClash, WritesOf, IsStepped, Refuses, Takes, Tells, begun, is_over, left, next, next_folder};

use crate::folder::{HEADS, folder_meta};
use crate::name::ref_at;
use crate::stands::{Stands, look_at};
use fs_trait::{Fs, FsErr, StepResult};
use ost_types::{FsPath, Meta, NoMemory};
use repo_layout::{Folder, RefName, folder_path, ref_path};
use std::alloc::Global;
use std::marker::Model;
use std::mem;

/// What the next step does for the next folder on the way.
#[derive(Clone, Copy, Debug, PartialEq, Eq)]
pub enum Leg {
    /// Makes it, where nothing stands there.
    Make,
    /// Syncs the folder that has it, whether it was made or found.
    Sync,
    /// Nothing: all folders on the way are there, and outlast a crash.
    Over,
}

/// The task that makes the folders on the way to a ref's file, a step at a time, and makes sure that they outlast a crash.
#[derive(Drop, Debug)]
pub struct Way {
    name: RefName,
    at: FsPath,
    // the folder that was reached, and the next one
    folder: FsPath,
    next: FsPath,
    reached: usize,
    leg: Leg,
    meta: Meta,
    alloc: Global,
}

impl Model for Way {
    ghost use Rattle.std.specs.Prelude.{◌≡◌, ◌<◌, ◌+◌, length};
    ghost use Rattle.repo_layout.specs.RefName.{IsRefName, parts_of};
    ghost use Rattle.repo_layout.specs.Paths.{ref_path};
    ghost use Rattle.ref_room.specs.Clash.{way_to};
    ghost use Rattle.ref_room.specs.Way.{Walked, folder_meta, leg_of};

    ghost Value = { Walked };

    ghost view = { λ a. record { name = a.name; reached = a.reached; leg = a.leg } };

    ghost invariant = { λ a. (a.at ≡ ref_path a.name) × (a.folder ≡ way_to a.reached a.name) × (a.next ≡ way_to (a.reached + 1) a.name) × (a.meta ≡ folder_meta) × (a.reached < length (parts_of a.name)) × leg_of a.leg a.reached a.name × IsRefName a.name };
}

impl Way {
    /// The way to the ref's file. The folder of all refs is there.
    pub fn new(alloc: Global, name: RefName) -> Result<Way, NoMemory>
        ensures { IfOk result (λ t. t ≡ begun name) }
    {
        let at = ref_path(alloc, &name)?;
        let folder = folder_path(alloc, Folder::Heads)?;
        let next = folder.child(&at.names()[HEADS])?;
        let leg = leg_at(&at, 0);
        Ok(Way {
            name,
            at,
            folder,
            next,
            reached: 0,
            leg,
            meta: folder_meta(alloc),
            alloc,
        })
    }

    /// Whether all folders on the way are there and outlast a crash.
    pub fn is_over(&self) -> bool
        ensures { result ≡ is_over self.now.leg }
    {
        self.leg == Leg::Over
    }

    /// At most so many steps are left.
    pub fn left(&self) -> u128
        ensures { result ≡ left self.now }
    {
        let ahead = (self.at.names().len() - HEADS - 1 - self.reached) as u128;
        match self.leg {
            Leg::Make => 2 * ahead,
            Leg::Sync => 2 * ahead - 1,
            Leg::Over => 0,
        }
    }

    /// The folder of the ref's file, once the way is over.
    pub fn into_folder(self) -> FsPath
        requires { self.leg ≡ leg.Over }
        ensures { result ≡ ref_folder self.name }
    {
        let Way { folder, .. } = self;
        folder
    }

    /// Does the next step: at most one changing call, and one reading call before it. It is done with the name of a ref that
    /// stands in a folder's place, which is the only one that clashes, or with None when the way is over. After an error the
    /// task is unchanged, so that the step may be tried again.
    pub fn step<F: Fs>(&mut self, fs: &mut F) -> Result<StepResult<Option<RefName>>, FsErr>
        requires { (v : View) → F.view fs.old ≡ Some v → Needs self.old v }
        ensures writes { (v : View) → F.view fs.old ≡ Some v → Told (F.view fs.new) (λ w. Writes (WritesOf self.old v) v w) }
        ensures after { (v : View) → F.view fs.old ≡ Some v → OnOk result (Told (F.view fs.new) (λ w. Needs self.new w)) }
        ensures tells { (v : View) → F.view fs.old ≡ Some v → IfOk result (Tells self.old v) }
        ensures fails { (v : View) → F.view fs.old ≡ Some v → IfErr result (Refuses self.old v) }
        ensures named { IfErr result OfPlacing }
        ensures stepped { IsStepped self.old result self.new }
        ensures falls { OnMore result (left self.new < left self.old) }
        ensures time { Elapses (F.clock fs.old) (F.clock fs.new) (F.was fs.old) (F.was fs.new) (F.view fs.new) }
        ensures ticks { OnOk result (Takes self.old.leg (F.clock fs.old) (F.clock fs.new)) }
        ensures cause { HasCause (F.faults fs.old) (F.faults fs.new) result }
        ensures room { F.spare fs.old ≤ F.spare fs.new + 1 }
        ensures unchanged { (v : View) → F.view fs.old ≡ Some v → IsErrOf result err.NoMemory → F.view fs.new ≡ Some v }
    {
        match self.leg {
            Leg::Make => self.make(fs),
            Leg::Sync => self.sync(fs),
            Leg::Over => Ok(StepResult::Done(None)),
        }
    }

    fn make<F: Fs>(&mut self, fs: &mut F) -> Result<StepResult<Option<RefName>>, FsErr>
        requires leg { self.old.leg ≡ leg.Make }
        requires needs { (v : View) → F.view fs.old ≡ Some v → Needs self.old v }
        ensures writes { (v : View) → F.view fs.old ≡ Some v → Told (F.view fs.new) (λ w. Writes (WritesOf self.old v) v w) }
        ensures after { (v : View) → F.view fs.old ≡ Some v → OnOk result (Told (F.view fs.new) (λ w. Needs self.new w)) }
        ensures tells { (v : View) → F.view fs.old ≡ Some v → IfOk result (Tells self.old v) }
        ensures fails { (v : View) → F.view fs.old ≡ Some v → IfErr result (Refuses self.old v) }
        ensures named { IfErr result OfPlacing }
        ensures stepped { IsStepped self.old result self.new }
        ensures falls { OnMore result (left self.new < left self.old) }
        ensures time { Elapses (F.clock fs.old) (F.clock fs.new) (F.was fs.old) (F.was fs.new) (F.view fs.new) }
        ensures ticks { OnOk result (Takes self.old.leg (F.clock fs.old) (F.clock fs.new)) }
        ensures cause { HasCause (F.faults fs.old) (F.faults fs.new) result }
        ensures room { F.spare fs.old ≤ F.spare fs.new + 1 }
        ensures unchanged { (v : View) → F.view fs.old ≡ Some v → IsErrOf result err.NoMemory → F.view fs.new ≡ Some v }
    {
        match look_at(fs, &self.next)? {
            Stands::Nothing => {
                fs.mkdir(&self.next, &self.meta)?;
                self.leg = Leg::Sync;
                Ok(StepResult::More)
            }
            Stands::Folder => {
                self.leg = Leg::Sync;
                Ok(StepResult::More)
            }
            Stands::Leaf => Ok(StepResult::Done(Some(self.clash()?))),
        }
    }

    // the ref that stands in the next folder's place
    fn clash(&self) -> Result<RefName, FsErr>
        ensures ok { IfOk result (λ other. IsRefName other × (ref_path other ≡ next_folder self.now)) }
        ensures err { IfErr result (NoClash (next_folder self.now)) }
    {
        match ref_at(self.alloc, &self.next)? {
            Some(other) => Ok(other),
            None => Err(FsErr::Exists),
        }
    }

    fn sync<F: Fs>(&mut self, fs: &mut F) -> Result<StepResult<Option<RefName>>, FsErr>
        requires leg { self.old.leg ≡ leg.Sync }
        requires needs { (v : View) → F.view fs.old ≡ Some v → Needs self.old v }
        ensures writes { (v : View) → F.view fs.old ≡ Some v → Told (F.view fs.new) (λ w. Writes (WritesOf self.old v) v w) }
        ensures after { (v : View) → F.view fs.old ≡ Some v → OnOk result (Told (F.view fs.new) (λ w. Needs self.new w)) }
        ensures tells { (v : View) → F.view fs.old ≡ Some v → IfOk result (Tells self.old v) }
        ensures fails { (v : View) → F.view fs.old ≡ Some v → IfErr result (Refuses self.old v) }
        ensures named { IfErr result OfPlacing }
        ensures stepped { IsStepped self.old result self.new }
        ensures falls { OnMore result (left self.new < left self.old) }
        ensures time { Elapses (F.clock fs.old) (F.clock fs.new) (F.was fs.old) (F.was fs.new) (F.view fs.new) }
        ensures ticks { OnOk result (Takes self.old.leg (F.clock fs.old) (F.clock fs.new)) }
        ensures cause { HasCause (F.faults fs.old) (F.faults fs.new) result }
        ensures room { F.spare fs.old ≤ F.spare fs.new + 1 }
        ensures unchanged { (v : View) → F.view fs.old ≡ Some v → IsErrOf result err.NoMemory → F.view fs.new ≡ Some v }
    {
        let beyond = self.beyond()?;
        fs.sync_dir(&self.folder)?;
        self.arrive(beyond);
        Ok(if self.is_over() {
            StepResult::Done(None)
        } else {
            StepResult::More
        })
    }

    // the path behind the next folder
    fn beyond(&self) -> Result<FsPath, NoMemory>
        requires { self.now.leg ≡ leg.Sync }
        ensures { IfOk result (λ p. p ≡ way_to (self.now.reached + 2) self.now.name) }
    {
        self.next.child(&self.at.names()[HEADS + self.reached + 1])
    }

    // the next folder is there and outlasts a crash
    fn arrive(&mut self, beyond: FsPath)
        requires leg { self.old.leg ≡ leg.Sync }
        requires beyond { beyond ≡ way_to (self.old.reached + 2) self.old.name }
        ensures { self.new ≡ next self.old }
    {
        self.folder = mem::replace(&mut self.next, beyond);
        self.reached += 1;
        self.leg = leg_at(&self.at, self.reached);
    }
}

// what is to be done first where so many folders are reached
fn leg_at(at: &FsPath, reached: usize) -> Leg
    requires { HEADS < length at.now }
    ensures { result ≡ (if nat_lt (reached + 1) (length at.now - 4) then leg.Make else leg.Over) }
{
    if reached < at.names().len() - HEADS - 1 {
        Leg::Make
    } else {
        Leg::Over
    }
}
