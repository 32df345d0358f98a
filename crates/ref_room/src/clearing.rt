ghost use Rattle.std.specs.Prelude.{◌≡◌, ◌⊎◌, ◌≤◌, ◌<◌, ◌+◌, ◌^◌, ℕ, Contains, Option, Some, OnOk, OnErr, IfOk, IfErr, IsErrOf};
ghost use Rattle.ost_types.specs.Path.{Name, Path, IsPath, under};
ghost use Rattle.fs_trait.specs.View.{View};
ghost use Rattle.fs_trait.specs.Image.{Told};
ghost use Rattle.fs_trait.specs.declared.types.FsErr.TheVariants as err;
ghost use Rattle.fs_trait.specs.Effect.{Elapses, HasCause, OfEmptying};
ghost use Rattle.fs_trait.specs.Change.{Writes};
ghost use Rattle.ref_room.specs.Turns.{OnMore};
ghost use Rattle.ref_room.specs.Clearing.{Cleared, Act, Looks, Removes, Needs, WritesOf, IsOpened, IsStepped, Refuses, Takes, Tells, act, begun, counted, left, lesser, passed, top};

use crate::name::ref_at;
use crate::stands::{Stands, look_at};
use fs_trait::{Fs, FsErr, StepResult};
use ost_types::{FsPath, Names, NoMemory, TryCopy};
use repo_layout::{RefName, ref_path};
use std::alloc::Global;
use std::collections::BTreeSet;
use std::marker::Model;

/// The task that makes room at a ref's path where no leaf stands, a step at a time: it looks at all that stands there and
/// below. Where a ref stands below, it tells the first of them by the bytes of the names, and removes nothing. Else it removes
/// the folders that it found.
#[derive(Drop, Debug)]
pub struct Clearing {
    name: RefName,
    // what wasn't looked at yet
    pending: Vec<FsPath>,
    folders: BTreeSet<FsPath>,
    least: Option<RefName>,
    alloc: Global,
}

impl Model for Clearing {
    ghost use Rattle.std.specs.Prelude.{◌<◌, ◌^◌, length};
    ghost use Rattle.ref_room.specs.Clearing.{Cleared};

    ghost Value = { Cleared };

    ghost view = { λ a. record { name = a.name; pending = a.pending.items; folders = a.folders.keys; least = a.least } };

    ghost invariant = { λ a. length a.folders.keys < 2 ^ 63 };
}

impl Clearing {
    /// The task for the ref's path, at which no leaf stands.
    pub fn new(alloc: Global, name: RefName) -> Result<Clearing, NoMemory>
        ensures { IfOk result (λ t. t ≡ begun name) }
    {
        let mut pending = Vec::new(alloc);
        pending.push(ref_path(alloc, &name)?)?;
        Ok(Clearing {
            name,
            pending,
            folders: BTreeSet::new(alloc),
            least: None,
            alloc,
        })
    }

    /// At most so many steps are left, whatever is found.
    pub fn left(&self) -> u128
        ensures value { result ≡ left self.now }
        ensures small { result < 2 ^ 127 + 2 ^ 64 }
    {
        let folders = self.folders.len() as u128;
        if !self.pending.is_empty() {
            ((1 << 63) - folders) * (1 << 64) + self.pending.len() as u128
        } else if self.least.is_some() {
            1
        } else {
            folders + 1
        }
    }

    /// Does the next step: at most one changing call, or two reading calls. It is done with the least clash where refs stand
    /// below the path, or with None when nothing stands at the path. After an error the task is unchanged, so that the step may
    /// be tried again.
    pub fn step<F: Fs>(&mut self, fs: &mut F) -> Result<StepResult<Option<RefName>>, FsErr>
        requires { (v : View) → F.view fs.old ≡ Some v → Needs self.old v }
        ensures writes { (v : View) → F.view fs.old ≡ Some v → Told (F.view fs.new) (λ w. Writes (WritesOf self.old v) v w) }
        ensures after { (v : View) → F.view fs.old ≡ Some v → OnOk result (Told (F.view fs.new) (λ w. Needs self.new w)) }
        ensures tells { (v : View) → F.view fs.old ≡ Some v → IfOk result (Tells self.old v) }
        ensures fails { (v : View) → F.view fs.old ≡ Some v → IfErr result (Refuses self.old v) }
        ensures named { IfErr result OfEmptying }
        ensures stepped { IsStepped self.old result self.new }
        ensures falls { OnMore result (left self.new < left self.old) }
        ensures time { Elapses (F.clock fs.old) (F.clock fs.new) (F.was fs.old) (F.was fs.new) (F.view fs.new) }
        ensures ticks { OnOk result (Takes (act self.old) (F.clock fs.old) (F.clock fs.new)) }
        ensures cause { HasCause (F.faults fs.old) (F.faults fs.new) result }
        ensures room { F.spare fs.old ≤ F.spare fs.new + 1 }
        ensures unchanged { (v : View) → F.view fs.old ≡ Some v → IsErrOf result err.NoMemory → F.view fs.new ≡ Some v }
    {
        if !self.pending.is_empty() {
            return self.look(fs);
        }
        if let Some(other) = &self.least {
            return Ok(StepResult::Done(Some(other.copy()?)));
        }
        if self.folders.is_empty() {
            return Ok(StepResult::Done(None));
        }
        self.remove(fs)
    }

    // looks at the path that was found last
    fn look<F: Fs>(&mut self, fs: &mut F) -> Result<StepResult<Option<RefName>>, FsErr>
        requires act { act self.old ≡ Looks }
        requires needs { (v : View) → F.view fs.old ≡ Some v → Needs self.old v }
        ensures writes { (v : View) → F.view fs.old ≡ Some v → Told (F.view fs.new) (λ w. Writes (WritesOf self.old v) v w) }
        ensures after { (v : View) → F.view fs.old ≡ Some v → OnOk result (Told (F.view fs.new) (λ w. Needs self.new w)) }
        ensures tells { (v : View) → F.view fs.old ≡ Some v → IfOk result (Tells self.old v) }
        ensures fails { (v : View) → F.view fs.old ≡ Some v → IfErr result (Refuses self.old v) }
        ensures named { IfErr result OfEmptying }
        ensures stepped { IsStepped self.old result self.new }
        ensures falls { OnMore result (left self.new < left self.old) }
        ensures time { Elapses (F.clock fs.old) (F.clock fs.new) (F.was fs.old) (F.was fs.new) (F.view fs.new) }
        ensures ticks { OnOk result (Takes (act self.old) (F.clock fs.old) (F.clock fs.new)) }
        ensures cause { HasCause (F.faults fs.old) (F.faults fs.new) result }
        ensures room { F.spare fs.old ≤ F.spare fs.new + 1 }
        ensures unchanged { (v : View) → F.view fs.old ≡ Some v → IsErrOf result err.NoMemory → F.view fs.new ≡ Some v }
    {
        match look_at(fs, self.top())? {
            Stands::Nothing => {
                self.pass();
                Ok(StepResult::More)
            }
            Stands::Leaf => {
                let other = ref_at(self.alloc, self.top())?;
                self.count(other);
                Ok(StepResult::More)
            }
            Stands::Folder => {
                let names = fs.list(self.top())?;
                self.open(&names)?;
                Ok(StepResult::More)
            }
        }
    }

    fn top(&self) -> &FsPath
        requires { act self.now ≡ Looks }
        ensures { result.now ≡ top self.now }
    {
        &self.pending[self.pending.len() - 1]
    }

    // nothing stands at the path
    fn pass(&mut self)
        requires { act self.old ≡ Looks }
        ensures value { self.new ≡ passed self.old }
        ensures falls { left self.new < left self.old }
    {
        self.pending.pop();
    }

    // a leaf stands there, which is this ref or none
    fn count(&mut self, other: Option<RefName>)
        requires { act self.old ≡ Looks }
        ensures value { self.new ≡ counted other self.old }
        ensures falls { left self.new < left self.old }
    {
        self.pending.pop();
        if let Some(other) = other {
            self.offer(other);
        }
    }

    fn offer(&mut self, other: RefName)
        ensures { self.new ≡ record self.old { least = lesser self.old.least (Some other) } }
    {
        let is_less = match &self.least {
            Some(least) => other < *least,
            None => true,
        };
        if is_less {
            self.least = Some(other);
        }
    }

    // a folder with these names stands there
    fn open(&mut self, names: &Names) -> Result<(), NoMemory>
        requires { act self.old ≡ Looks }
        ensures ok { OnOk result (IsOpened names.now self.old self.new) }
        ensures err { OnErr result (self.new ≡ self.old) }
        ensures falls { OnOk result (left self.new < left self.old) }
    {
        let folder = self.top().copy()?;
        let mut inside = paths_in(self.alloc, &folder, names)?;
        self.pending.reserve(inside.len())?;
        let before = self.folders.len();
        self.folders.insert(folder)?;
        self.pending.pop();
        if self.folders.len() == before {
            // it was found before, with its names
            return Ok(());
        }
        self.pending.append(&mut inside)?;
        Ok(())
    }

    // removes the last folder, which has no other below it
    fn remove<F: Fs>(&mut self, fs: &mut F) -> Result<StepResult<Option<RefName>>, FsErr>
        requires act { act self.old ≡ Removes }
        requires needs { (v : View) → F.view fs.old ≡ Some v → Needs self.old v }
        ensures writes { (v : View) → F.view fs.old ≡ Some v → Told (F.view fs.new) (λ w. Writes (WritesOf self.old v) v w) }
        ensures after { (v : View) → F.view fs.old ≡ Some v → OnOk result (Told (F.view fs.new) (λ w. Needs self.new w)) }
        ensures tells { (v : View) → F.view fs.old ≡ Some v → IfOk result (Tells self.old v) }
        ensures fails { (v : View) → F.view fs.old ≡ Some v → IfErr result (Refuses self.old v) }
        ensures named { IfErr result OfEmptying }
        ensures stepped { IsStepped self.old result self.new }
        ensures falls { OnMore result (left self.new < left self.old) }
        ensures time { Elapses (F.clock fs.old) (F.clock fs.new) (F.was fs.old) (F.was fs.new) (F.view fs.new) }
        ensures ticks { OnOk result (Takes (act self.old) (F.clock fs.old) (F.clock fs.new)) }
        ensures cause { HasCause (F.faults fs.old) (F.faults fs.new) result }
        ensures room { F.spare fs.old ≤ F.spare fs.new + 1 }
        ensures unchanged { (v : View) → F.view fs.old ≡ Some v → IsErrOf result err.NoMemory → F.view fs.new ≡ Some v }
    {
        let Some(folder) = self.folders.last() else {
            return Ok(StepResult::Done(None));
        };
        let _names = folder.names();
        fs.rmdir(folder)?;
        self.folders.pop_last();
        Ok(StepResult::More)
    }
}

// the paths of the names in the folder, as far as they are within the bounds of a path
fn paths_in(alloc: Global, folder: &FsPath, names: &Names) -> Result<Vec<FsPath>, NoMemory>
    ensures each { IfOk result (λ paths. (p : Path) → Contains paths.items p → (x : Name) × (p ≡ under folder.now x)) }
    ensures all { IfOk result (λ paths. (x : Name) → Contains names.now x → Contains paths.items (under folder.now x) ⊎ (¬ (IsPath (under folder.now x)))) }
{
    let mut paths = Vec::new(alloc);
    for name in names.as_slice() {
        if folder.can_hold(name) {
            paths.push(folder.child(name)?)?;
        }
    }
    Ok(paths)
}
