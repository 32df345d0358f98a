ghost use Rattle.std.specs.Prelude.{◌≡◌, ◌≤◌, Option, Some, OnOk, OnErr, IfOk, IfErr};
ghost use Rattle.fs_trait.specs.View.{View};
ghost use Rattle.fs_trait.specs.Effect.{HasCause, IsQuiet};
ghost use Rattle.repo_layout.specs.Fixed.{number};
ghost use Rattle.boot_model.specs.Items.{AreItems};
ghost use Rattle.boot_compare.specs.declared.choosing.ChoosePhase.TheVariants as phase;
ghost use Rattle.boot_compare.specs.Choosing.{Falls, IsBarred, IsCompare, IsList, IsLook, IsNamed, IsSelected, IsVersionOf, Knows, OnMore, Tells, left, other, outcome, parts};

use crate::comparing::{Compared, Comparing};
use boot_model::{BootItem, loader_target};
use boot_plan::loader_path;
use fs_trait::{Fs, FsErr, Node, StepResult};
use repo_layout::Version;
use std::alloc::Global;
use std::marker::Model;

/// The other one of two versions.
pub fn other(version: Version) -> Version
    ensures { result ≡ other version }
{
    match version {
        Version::Zero => Version::One,
        Version::One => Version::Zero,
    }
}

/// Which swap lets a list boot.
#[derive(Clone, Copy, Debug, PartialEq, Eq)]
pub enum Swap {
    /// That of the boot loader's link, to this version.
    Loader(Version),
    /// That of the link of this version, which the boot loader's link selects and goes on to select.
    Sub(Version),
}

/// What the next step of a choice does.
#[derive(Drop, Debug)]
pub(crate) enum ChoosePhase {
    /// Looks which version the boot loader's link selects.
    Look,
    /// Lists the entries of that version.
    Entries(Version),
    /// Compares the next of them with those of the list.
    Compare(Version, Comparing),
}

/// The task that finds out which swap lets a list boot. It changes nothing.
#[derive(Drop, Debug)]
pub struct ChooseTask {
    alloc: Global,
    phase: ChoosePhase,
}

impl Model for ChooseTask {
    ghost use Rattle.boot_compare.specs.Choosing.{Choosing};

    ghost Value = { Choosing };

    ghost view = { λ a. record { phase = a.phase } };
}

impl ChooseTask {
    pub fn new(alloc: Global) -> ChooseTask
        ensures { result.phase ≡ phase.Look }
    {
        ChooseTask {
            alloc,
            phase: ChoosePhase::Look,
        }
    }

    /// How many parts are left, the one that is being done among them: at most three.
    pub fn parts(&self) -> u8
        ensures { result ≡ parts self.now.phase }
    {
        match &self.phase {
            ChoosePhase::Look => 3,
            ChoosePhase::Entries(_) => 2,
            ChoosePhase::Compare(..) => 1,
        }
    }

    /// At most so many steps of this part are left.
    pub fn left(&self) -> u128
        ensures { result ≡ left self.now.phase }
    {
        match &self.phase {
            ChoosePhase::Compare(_, comparing) => comparing.left() + 1,
            _ => 1,
        }
    }

    /// Does the next step: at most one reading call. After an error, and once the swap is known, the task is unchanged.
    /// `Exists` says that something else than a link to a version stands in the place of the boot loader's link.
    pub fn step<F: Fs>(&mut self, fs: &mut F, items: &[BootItem]) -> Result<StepResult<Swap>, FsErr>
        requires { AreItems items.now }
        ensures told { (v : View) → F.view fs.old ≡ Some v → Knows self.old v.now items.now → IfOk result (λ r. Tells v.now items.now r self.new) }
        ensures fails { (v : View) → F.view fs.old ≡ Some v → IfErr result (IsBarred v.now) }
        ensures falls { OnMore result (Falls self.new.phase self.old.phase) }
        ensures err { OnErr result (self.new ≡ self.old) }
        ensures named { IfErr result IsNamed }
        ensures quiet { IsQuiet (F.clock fs.old) (F.clock fs.new) (F.was fs.old) (F.was fs.new) (F.view fs.old) (F.view fs.new) }
        ensures keeps_room { F.spare fs.old ≤ F.spare fs.new }
        ensures cause { HasCause (F.faults fs.old) (F.faults fs.new) result }
    {
        match &self.phase {
            ChoosePhase::Look => self.look(fs, items),
            ChoosePhase::Entries(_) => self.list(fs, items),
            ChoosePhase::Compare(..) => self.compare(fs, items),
        }
    }

    // looks which version is selected
    fn look<F: Fs>(&mut self, fs: &mut F, items: &[BootItem]) -> Result<StepResult<Swap>, FsErr>
        requires phase { IsLook self.old.phase }
        requires items { AreItems items.now }
        ensures told { (v : View) → F.view fs.old ≡ Some v → Knows self.old v.now items.now → IfOk result (λ r. Tells v.now items.now r self.new) }
        ensures fails { (v : View) → F.view fs.old ≡ Some v → IfErr result (IsBarred v.now) }
        ensures falls { OnMore result (Falls self.new.phase self.old.phase) }
        ensures err { OnErr result (self.new ≡ self.old) }
        ensures named { IfErr result IsNamed }
        ensures quiet { IsQuiet (F.clock fs.old) (F.clock fs.new) (F.was fs.old) (F.was fs.new) (F.view fs.old) (F.view fs.new) }
        ensures keeps_room { F.spare fs.old ≤ F.spare fs.new }
        ensures cause { HasCause (F.faults fs.old) (F.faults fs.new) result }
    {
        let _items = items;
        match selected(self.alloc, fs)? {
            None => Ok(StepResult::Done(Swap::Loader(Version::Zero))),
            Some(version) => {
                self.phase = ChoosePhase::Entries(version);
                Ok(StepResult::More)
            }
        }
    }

    // lists the entries of that version
    fn list<F: Fs>(&mut self, fs: &mut F, items: &[BootItem]) -> Result<StepResult<Swap>, FsErr>
        requires phase { IsList self.old.phase }
        requires items { AreItems items.now }
        ensures told { (v : View) → F.view fs.old ≡ Some v → Knows self.old v.now items.now → IfOk result (λ r. Tells v.now items.now r self.new) }
        ensures fails { (v : View) → F.view fs.old ≡ Some v → IfErr result (IsBarred v.now) }
        ensures falls { OnMore result (Falls self.new.phase self.old.phase) }
        ensures err { OnErr result (self.new ≡ self.old) }
        ensures named { IfErr result IsNamed }
        ensures quiet { IsQuiet (F.clock fs.old) (F.clock fs.new) (F.was fs.old) (F.was fs.new) (F.view fs.old) (F.view fs.new) }
        ensures keeps_room { F.spare fs.old ≤ F.spare fs.new }
        ensures cause { HasCause (F.faults fs.old) (F.faults fs.new) result }
    {
        let ChoosePhase::Entries(version) = self.phase else {
            unreachable!()
        };
        let comparing = Comparing::begin(self.alloc, fs, version, items)?;
        self.phase = ChoosePhase::Compare(version, comparing);
        Ok(StepResult::More)
    }

    // compares the next of them
    fn compare<F: Fs>(&mut self, fs: &mut F, items: &[BootItem]) -> Result<StepResult<Swap>, FsErr>
        requires phase { IsCompare self.old.phase }
        requires items { AreItems items.now }
        ensures told { (v : View) → F.view fs.old ≡ Some v → Knows self.old v.now items.now → IfOk result (λ r. Tells v.now items.now r self.new) }
        ensures fails { (v : View) → F.view fs.old ≡ Some v → IfErr result (IsBarred v.now) }
        ensures falls { OnMore result (Falls self.new.phase self.old.phase) }
        ensures err { OnErr result (self.new ≡ self.old) }
        ensures named { IfErr result IsNamed }
        ensures quiet { IsQuiet (F.clock fs.old) (F.clock fs.new) (F.was fs.old) (F.was fs.new) (F.view fs.old) (F.view fs.new) }
        ensures keeps_room { F.spare fs.old ≤ F.spare fs.new }
        ensures cause { HasCause (F.faults fs.old) (F.faults fs.new) result }
    {
        let _items = items;
        let ChoosePhase::Compare(version, comparing) = &mut self.phase else {
            unreachable!()
        };
        let version = *version;
        let compared = comparing.step(fs, version)?;
        Ok(outcome(version, compared))
    }
}

// what a comparison of this version's entries says of the swap
fn outcome(version: Version, compared: Compared) -> StepResult<Swap>
    ensures { result ≡ outcome version compared }
{
    match compared {
        Compared::More => StepResult::More,
        Compared::Same => StepResult::Done(Swap::Sub(version)),
        Compared::Other => StepResult::Done(Swap::Loader(other(version))),
    }
}

// the version that the boot loader's link selects; none where nothing stands there
fn selected<F: Fs>(alloc: Global, fs: &mut F) -> Result<Option<Version>, FsErr>
    ensures told { (v : View) → F.view fs.old ≡ Some v → IfOk result (IsSelected v.now) }
    ensures fails { (v : View) → F.view fs.old ≡ Some v → IfErr result (IsBarred v.now) }
    ensures named { IfErr result IsNamed }
    ensures quiet { IsQuiet (F.clock fs.old) (F.clock fs.new) (F.was fs.old) (F.was fs.new) (F.view fs.old) (F.view fs.new) }
    ensures keeps_room { F.spare fs.old ≤ F.spare fs.new }
    ensures cause { HasCause (F.faults fs.old) (F.faults fs.new) result }
{
    let at = loader_path(alloc)?;
    let node = fs.stat(&at)?;
    match &node {
        None => Ok(None),
        Some(node) => match version_of(node) {
            Some(version) => Ok(Some(version)),
            None => Err(FsErr::Exists),
        },
    }
}

// the version that a link of this target selects
fn version_of(node: &Node) -> Option<Version>
    ensures { IsVersionOf node.now result }
{
    let Node::Link { meta: _, target } = node else {
        return None;
    };
    if target.as_slice() == loader_target(Version::Zero) {
        return Some(Version::Zero);
    }
    if target.as_slice() == loader_target(Version::One) {
        return Some(Version::One);
    }
    None
}
