//! The task that reads a folder of the disk as a map.
ghost use Rattle.std.specs.Prelude.{◌≡◌, ◌≢◌, ◌≤◌, ◌<◌, ◌++◌, ◌∷◌, [], length, Some, IfErr};
ghost use Rattle.ost_types.specs.PathMap.{IsAscending, paths_of};
ghost use Rattle.ost_types.specs.Mode.{IsFolderMode};
ghost use Rattle.fs_trait.specs.View.{View};
ghost use Rattle.fs_trait.specs.Effect.{HasCause, IsQuiet, OfFinding};
ghost use Rattle.fs_trait.specs.declared.task.Need.TheVariants as need;
ghost use Rattle.tree_scan.specs.declared.look.Looked.TheVariants as looks;
ghost use Rattle.tree_scan.specs.Looking.{HasNode};
ghost use Rattle.tree_scan.specs.Scanning.{IsStepped, OnMore, Scanning, begun, left, passed};
ghost use Rattle.tree_scan.specs.Steps.{Comes, IsNext, MissesFolder, StepTells};
ghost use Rattle.tree_scan.specs.SoFar.{IsSoFar};

use crate::children::{all_fit, children_of};
use crate::fault::ScanFault;
use crate::look::{Looked, look};
use fs_trait::{Fs, FsErr, Need, StepResult};
use ost_types::{Csum, FsPath, Limits, Meta, Names, NoMemory, NodeName, PathMap, TryCopy};
use std::alloc::Global;
use std::marker::Model;

/// The task that reads what stands in a folder as a map: each folder with its attributes, and each file and link by the sum that its
/// object would have. A step looks at one path; the paths come in their order.
#[derive(Drop, Debug)]
pub struct TreeScan {
    alloc: Global,
    at: FsPath,
    limits: Limits,
    // the path in the folder that is looked at next, and those after it, the last of all first
    next: Option<FsPath>,
    after: Vec<FsPath>,
    found: PathMap,
}

impl Model for TreeScan {
    ghost use Rattle.std.specs.Prelude.{◌≡◌, ◌++◌, [], None, reverse, option_to_list};
    ghost use Rattle.tree_scan.specs.Scanning.{Scanning, AreWithin};

    ghost Value = { Scanning };

    ghost view = { λ a. record { at = a.at; limits = a.limits; todo = option_to_list a.next ++ reverse a.after.items; found = a.found } };

    ghost invariant = { λ a. AreWithin a.at (option_to_list a.next ++ reverse a.after.items) × (a.next ≡ None → a.after.items ≡ []) };
}

/// What a step came to.
type Turn = StepResult<Result<(), ScanFault>>;

/// More than the paths that wait at any time.
const EACH: u128 = 1 << 64;

impl TreeScan {
    /// Reads the folder at this path.
    pub fn new(alloc: Global, at: FsPath, limits: Limits) -> TreeScan
        ensures { result ≡ begun at limits }
    {
        let _names = at.names();
        TreeScan {
            alloc,
            at,
            limits,
            next: Some(FsPath::root(alloc)),
            after: Vec::new(alloc),
            found: PathMap::new(alloc),
        }
    }

    /// The paths that were read so far; after `Done(Ok(()))` the folder.
    pub fn found(&self) -> &PathMap
        ensures { result.now ≡ self.now.found }
    {
        &self.found
    }

    /// The same, for good.
    pub fn into_found(self) -> PathMap
        ensures { result ≡ self.found }
    {
        self.found
    }

    /// The lock under which the next step must stand: none, since it changes nothing.
    pub fn needs(&self) -> Need
        ensures { result ≡ need.Nothing }
    {
        Need::Nothing
    }

    /// At most so many steps go on.
    pub fn left(&self) -> u128
        ensures { result ≡ left self.now }
    {
        let paths = (self.limits.paths as u128).saturating_sub(self.found.len() as u128);
        paths * EACH + self.waiting()
    }

    // how many paths weren't looked at yet
    fn waiting(&self) -> u128
        ensures value { result ≡ length self.now.todo }
        ensures small { result ≤ 18446744073709551616 }
    {
        match &self.next {
            Some(_) => self.after.len() as u128 + 1,
            None => 0,
        }
    }

    /// Looks at the next path. It is done when there is none, or with the first fault. After an error the task is unchanged, so that
    /// the step may be tried again.
    pub fn step<F: Fs>(&mut self, fs: &mut F) -> Result<Turn, FsErr>
        ensures told { (v : View) → F.view fs.old ≡ Some v → IsSoFar v.now self.old → StepTells v.now self.old result self.new }
        ensures named { IfErr result OfFinding }
        ensures stepped { IsStepped self.old result self.new }
        ensures falls { OnMore result (left self.new < left self.old) }
        ensures quiet { IsQuiet (F.clock fs.old) (F.clock fs.new) (F.was fs.old) (F.was fs.new) (F.view fs.old) (F.view fs.new) }
        ensures room { F.spare fs.old ≤ F.spare fs.new }
        ensures cause { HasCause (F.faults fs.old) (F.faults fs.new) result }
    {
        let _pairs = self.found.as_slice();
        let Some(next) = &self.next else {
            return Ok(StepResult::Done(Ok(())));
        };
        let next = next.copy()?;
        if !self.found.fits(&next) {
            // no told view shows it: a folder was listed out of order, or with one name twice
            return Err(FsErr::Missing);
        }
        let at = self.at.join(&next)?;
        let looked = look(self.alloc, fs, &at, &self.limits)?;
        Ok(self.take(next, &at, looked)?)
    }

    // the next path is in the map, or no longer looked for
    fn pass(&mut self)
        ensures { self.new ≡ passed self.old }
    {
        self.next = self.after.pop();
    }

    // what comes of the next path, at which this was found
    fn take(&mut self, next: FsPath, at: &FsPath, looked: Looked) -> Result<Turn, NoMemory>
        requires next { IsNext self.old next }
        requires at { at.now ≡ self.old.at ++ next }
        requires fits { IsAscending (paths_of self.old.found ++ next ∷ []) }
        requires node { HasNode looked }
        ensures { Comes self.old next looked result self.new }
    {
        if misses_folder(&next, &looked) {
            return Ok(StepResult::Done(Err(ScanFault::NotFolder)));
        }
        match looked {
            Looked::Nothing => {
                self.pass();
                Ok(StepResult::More)
            }
            Looked::OddFolder => Ok(StepResult::Done(Err(ScanFault::Unreadable(next)))),
            Looked::OddLeaf => Ok(StepResult::Done(Err(ScanFault::Unreadable(next)))),
            Looked::Leaf(sum) => self.keep(next, sum),
            Looked::Folder(meta, names) => self.open(next, at, meta, names),
        }
    }

    // a leaf of this sum stands there
    fn keep(&mut self, next: FsPath, sum: Csum) -> Result<Turn, NoMemory>
        requires next { IsNext self.old next }
        requires inner { next ≢ [] }
        requires fits { IsAscending (paths_of self.old.found ++ next ∷ []) }
        ensures { Comes self.old next (looks.Leaf sum) result self.new }
    {
        if self.found.len() as u64 >= self.limits.paths as u64 {
            return Ok(StepResult::Done(Err(ScanFault::TooMany)));
        }
        self.found.push(next, NodeName::Leaf(sum))?;
        self.pass();
        Ok(StepResult::More)
    }

    // a folder with these attributes and names stands there
    fn open(
        &mut self,
        next: FsPath,
        at: &FsPath,
        meta: Meta,
        names: Names,
    ) -> Result<Turn, NoMemory>
        requires next { IsNext self.old next }
        requires at { at.now ≡ self.old.at ++ next }
        requires fits { IsAscending (paths_of self.old.found ++ next ∷ []) }
        requires mode { IsFolderMode meta.mode }
        ensures { Comes self.old next (looks.Folder meta names) result self.new }
    {
        if self.found.len() as u64 >= self.limits.paths as u64 {
            return Ok(StepResult::Done(Err(ScanFault::TooMany)));
        }
        if !all_fit(at, names.as_slice()) {
            return Ok(StepResult::Done(Err(ScanFault::TooLong(next))));
        }
        let mut below = children_of(self.alloc, &next, names.as_slice())?;
        self.after.reserve(below.len())?;
        self.found.push(next, NodeName::Folder(meta))?;
        let Ok(()) = self.after.append(&mut below) else {
            unreachable!()
        };
        self.pass();
        Ok(StepResult::More)
    }
}

/// Whether the path is that of the task's own folder, and something else was found there, or nothing.
fn misses_folder(path: &FsPath, looked: &Looked) -> bool
    ensures { MissesFolder path.now looked.now result }
{
    match looked {
        Looked::Folder(..) => false,
        Looked::OddFolder => false,
        _ => path.names().is_empty(),
    }
}
