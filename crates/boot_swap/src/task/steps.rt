//! The steps of a swap, one function a phase.
ghost use Rattle.std.specs.Prelude.{◌≡◌, Some, OnOk, IfErr, IsErrOf};
ghost use Rattle.fs_trait.specs.View.{View};
ghost use Rattle.fs_trait.specs.Image.{Told};
ghost use Rattle.fs_trait.specs.declared.types.FsErr.TheVariants as err;
ghost use Rattle.fs_trait.specs.Effect.{Elapses, HasCause};
ghost use Rattle.fs_trait.specs.Change.{Writes};
ghost use Rattle.folder_build.specs.Build.{OnMore};
ghost use Rattle.boot_swap.specs.Phases.{IsBarrier, IsBeginEntries, IsBeginLink, IsBeginLoader, IsChoose, IsEntries, IsLinks, IsLookLink, IsShowLink, IsShowLoader, IsSyncFolder};
ghost use Rattle.boot_swap.specs.Swap.{Falls, IsStepped, KeepsRoom, Takes};
ghost use Rattle.boot_swap.specs.Steps.{Needs, Refuses, Tells, WritesOf};

use super::SwapTask;
use crate::phase::{Phase, barred, chosen, filled, linked, version_of};
use crate::ready::{loader_link, other_sub, version_link};
use boot_compare::Swap;
use boot_plan::{build_entries, build_links};
use fs_trait::{Fs, FsErr, StepResult};
use repo_layout::{Fixed, Folder, fixed_path, folder_path};

impl SwapTask {
    /// Does the next step: at most one changing call, and two reading ones before it. After an error the task is unchanged, so that
    /// the step may be tried again.
    pub fn step<F: Fs>(&mut self, fs: &mut F) -> Result<StepResult<()>, FsErr>
        requires { (v : View) → F.view fs.old ≡ Some v → Needs self.old v }
        ensures writes { (v : View) → F.view fs.old ≡ Some v → Told (F.view fs.new) (λ w. Writes (WritesOf self.old v) v w) }
        ensures after { (v : View) → F.view fs.old ≡ Some v → OnOk result (Told (F.view fs.new) (λ w. Needs self.new w)) }
        ensures tells { (v : View) → F.view fs.old ≡ Some v → OnOk result (Tells self.old self.new v) }
        ensures fails { (v : View) → F.view fs.old ≡ Some v → IfErr result (Refuses self.old v) }
        ensures unchanged { (v : View) → F.view fs.old ≡ Some v → IsErrOf result err.NoMemory → F.view fs.new ≡ Some v }
        ensures stepped { IsStepped self.old result self.new }
        ensures falls { OnMore result (Falls self.new.phase self.old.phase) }
        ensures time { Elapses (F.clock fs.old) (F.clock fs.new) (F.was fs.old) (F.was fs.new) (F.view fs.new) }
        ensures ticks { OnOk result (Takes self.old.phase (F.clock fs.old) (F.clock fs.new)) }
        ensures cause { HasCause (F.faults fs.old) (F.faults fs.new) result }
        ensures room { KeepsRoom self.old.phase (F.spare fs.old) (F.spare fs.new) result }
    {
        match &self.phase {
            Phase::Choose(_) => self.choose(fs),
            Phase::BeginEntries(_) => self.begin_entries(fs),
            Phase::Entries(..) => self.entries(fs),
            Phase::LookLink(_) => self.look_link(fs),
            Phase::Links(..) => self.links(fs),
            Phase::BeginLink(..) => self.begin_link(fs),
            Phase::ShowLink(..) => self.show_link(fs),
            Phase::Barrier(..) => self.barrier(fs),
            Phase::BeginLoader(_) => self.begin_loader(fs),
            Phase::ShowLoader(..) => self.show_loader(fs),
            Phase::SyncFolder(_) => self.sync_folder(fs),
            Phase::Ended => Ok(StepResult::Done(())),
        }
    }

    // finds out which swap it is
    fn choose<F: Fs>(&mut self, fs: &mut F) -> Result<StepResult<()>, FsErr>
        requires phase { IsChoose self.old.phase }
        requires needs { (v : View) → F.view fs.old ≡ Some v → Needs self.old v }
        ensures writes { (v : View) → F.view fs.old ≡ Some v → Told (F.view fs.new) (λ w. Writes (WritesOf self.old v) v w) }
        ensures after { (v : View) → F.view fs.old ≡ Some v → OnOk result (Told (F.view fs.new) (λ w. Needs self.new w)) }
        ensures tells { (v : View) → F.view fs.old ≡ Some v → OnOk result (Tells self.old self.new v) }
        ensures fails { (v : View) → F.view fs.old ≡ Some v → IfErr result (Refuses self.old v) }
        ensures unchanged { (v : View) → F.view fs.old ≡ Some v → IsErrOf result err.NoMemory → F.view fs.new ≡ Some v }
        ensures stepped { IsStepped self.old result self.new }
        ensures falls { OnMore result (Falls self.new.phase self.old.phase) }
        ensures time { Elapses (F.clock fs.old) (F.clock fs.new) (F.was fs.old) (F.was fs.new) (F.view fs.new) }
        ensures ticks { OnOk result (Takes self.old.phase (F.clock fs.old) (F.clock fs.new)) }
        ensures cause { HasCause (F.faults fs.old) (F.faults fs.new) result }
        ensures room { KeepsRoom self.old.phase (F.spare fs.old) (F.spare fs.new) result }
    {
        let Phase::Choose(choose) = &mut self.phase else {
            unreachable!()
        };
        match choose.step(fs, &self.items)? {
            StepResult::More => Ok(StepResult::More),
            StepResult::Done(swap) => {
                self.phase = chosen(swap);
                Ok(StepResult::More)
            }
        }
    }

    // makes the folder of entries ready to be made
    fn begin_entries<F: Fs>(&mut self, fs: &mut F) -> Result<StepResult<()>, FsErr>
        requires phase { IsBeginEntries self.old.phase }
        requires needs { (v : View) → F.view fs.old ≡ Some v → Needs self.old v }
        ensures writes { (v : View) → F.view fs.old ≡ Some v → Told (F.view fs.new) (λ w. Writes (WritesOf self.old v) v w) }
        ensures after { (v : View) → F.view fs.old ≡ Some v → OnOk result (Told (F.view fs.new) (λ w. Needs self.new w)) }
        ensures tells { (v : View) → F.view fs.old ≡ Some v → OnOk result (Tells self.old self.new v) }
        ensures fails { (v : View) → F.view fs.old ≡ Some v → IfErr result (Refuses self.old v) }
        ensures unchanged { (v : View) → F.view fs.old ≡ Some v → IsErrOf result err.NoMemory → F.view fs.new ≡ Some v }
        ensures stepped { IsStepped self.old result self.new }
        ensures falls { OnMore result (Falls self.new.phase self.old.phase) }
        ensures time { Elapses (F.clock fs.old) (F.clock fs.new) (F.was fs.old) (F.was fs.new) (F.view fs.new) }
        ensures ticks { OnOk result (Takes self.old.phase (F.clock fs.old) (F.clock fs.new)) }
        ensures cause { HasCause (F.faults fs.old) (F.faults fs.new) result }
        ensures room { KeepsRoom self.old.phase (F.spare fs.old) (F.spare fs.new) result }
    {
        let Phase::BeginEntries(version) = self.phase else {
            unreachable!()
        };
        let build = build_entries(self.alloc, version, &self.items)?;
        self.phase = Phase::Entries(version, build);
        Ok(StepResult::More)
    }

    // makes the folder of entries
    fn entries<F: Fs>(&mut self, fs: &mut F) -> Result<StepResult<()>, FsErr>
        requires phase { IsEntries self.old.phase }
        requires needs { (v : View) → F.view fs.old ≡ Some v → Needs self.old v }
        ensures writes { (v : View) → F.view fs.old ≡ Some v → Told (F.view fs.new) (λ w. Writes (WritesOf self.old v) v w) }
        ensures after { (v : View) → F.view fs.old ≡ Some v → OnOk result (Told (F.view fs.new) (λ w. Needs self.new w)) }
        ensures tells { (v : View) → F.view fs.old ≡ Some v → OnOk result (Tells self.old self.new v) }
        ensures fails { (v : View) → F.view fs.old ≡ Some v → IfErr result (Refuses self.old v) }
        ensures unchanged { (v : View) → F.view fs.old ≡ Some v → IsErrOf result err.NoMemory → F.view fs.new ≡ Some v }
        ensures stepped { IsStepped self.old result self.new }
        ensures falls { OnMore result (Falls self.new.phase self.old.phase) }
        ensures time { Elapses (F.clock fs.old) (F.clock fs.new) (F.was fs.old) (F.was fs.new) (F.view fs.new) }
        ensures ticks { OnOk result (Takes self.old.phase (F.clock fs.old) (F.clock fs.new)) }
        ensures cause { HasCause (F.faults fs.old) (F.faults fs.new) result }
        ensures room { KeepsRoom self.old.phase (F.spare fs.old) (F.spare fs.new) result }
    {
        let Phase::Entries(version, build) = &mut self.phase else {
            unreachable!()
        };
        let version = *version;
        match build.step(fs)? {
            StepResult::More => Ok(StepResult::More),
            StepResult::Done(()) => {
                self.phase = Phase::LookLink(Swap::Loader(version));
                Ok(StepResult::More)
            }
        }
    }

    // looks which sub-version isn't named
    fn look_link<F: Fs>(&mut self, fs: &mut F) -> Result<StepResult<()>, FsErr>
        requires phase { IsLookLink self.old.phase }
        requires needs { (v : View) → F.view fs.old ≡ Some v → Needs self.old v }
        ensures writes { (v : View) → F.view fs.old ≡ Some v → Told (F.view fs.new) (λ w. Writes (WritesOf self.old v) v w) }
        ensures after { (v : View) → F.view fs.old ≡ Some v → OnOk result (Told (F.view fs.new) (λ w. Needs self.new w)) }
        ensures tells { (v : View) → F.view fs.old ≡ Some v → OnOk result (Tells self.old self.new v) }
        ensures fails { (v : View) → F.view fs.old ≡ Some v → IfErr result (Refuses self.old v) }
        ensures unchanged { (v : View) → F.view fs.old ≡ Some v → IsErrOf result err.NoMemory → F.view fs.new ≡ Some v }
        ensures stepped { IsStepped self.old result self.new }
        ensures falls { OnMore result (Falls self.new.phase self.old.phase) }
        ensures time { Elapses (F.clock fs.old) (F.clock fs.new) (F.was fs.old) (F.was fs.new) (F.view fs.new) }
        ensures ticks { OnOk result (Takes self.old.phase (F.clock fs.old) (F.clock fs.new)) }
        ensures cause { HasCause (F.faults fs.old) (F.faults fs.new) result }
        ensures room { KeepsRoom self.old.phase (F.spare fs.old) (F.spare fs.new) result }
    {
        let Phase::LookLink(swap) = self.phase else {
            unreachable!()
        };
        let version = version_of(swap);
        let at = fixed_path(self.alloc, Fixed::BootLink(version))?;
        let node = fs.stat(&at)?;
        let sub = other_sub(version, &node);
        let build = build_links(self.alloc, version, sub, &self.items)?;
        self.phase = Phase::Links(swap, sub, build);
        Ok(StepResult::More)
    }

    // makes the folder of links
    fn links<F: Fs>(&mut self, fs: &mut F) -> Result<StepResult<()>, FsErr>
        requires phase { IsLinks self.old.phase }
        requires needs { (v : View) → F.view fs.old ≡ Some v → Needs self.old v }
        ensures writes { (v : View) → F.view fs.old ≡ Some v → Told (F.view fs.new) (λ w. Writes (WritesOf self.old v) v w) }
        ensures after { (v : View) → F.view fs.old ≡ Some v → OnOk result (Told (F.view fs.new) (λ w. Needs self.new w)) }
        ensures tells { (v : View) → F.view fs.old ≡ Some v → OnOk result (Tells self.old self.new v) }
        ensures fails { (v : View) → F.view fs.old ≡ Some v → IfErr result (Refuses self.old v) }
        ensures unchanged { (v : View) → F.view fs.old ≡ Some v → IsErrOf result err.NoMemory → F.view fs.new ≡ Some v }
        ensures stepped { IsStepped self.old result self.new }
        ensures falls { OnMore result (Falls self.new.phase self.old.phase) }
        ensures time { Elapses (F.clock fs.old) (F.clock fs.new) (F.was fs.old) (F.was fs.new) (F.view fs.new) }
        ensures ticks { OnOk result (Takes self.old.phase (F.clock fs.old) (F.clock fs.new)) }
        ensures cause { HasCause (F.faults fs.old) (F.faults fs.new) result }
        ensures room { KeepsRoom self.old.phase (F.spare fs.old) (F.spare fs.new) result }
    {
        let Phase::Links(swap, sub, build) = &mut self.phase else {
            unreachable!()
        };
        let (swap, sub) = (*swap, *sub);
        match build.step(fs)? {
            StepResult::More => Ok(StepResult::More),
            StepResult::Done(()) => {
                self.phase = filled(swap, sub);
                Ok(StepResult::More)
            }
        }
    }

    // makes ready what puts the version's link in its place
    fn begin_link<F: Fs>(&mut self, fs: &mut F) -> Result<StepResult<()>, FsErr>
        requires phase { IsBeginLink self.old.phase }
        requires needs { (v : View) → F.view fs.old ≡ Some v → Needs self.old v }
        ensures writes { (v : View) → F.view fs.old ≡ Some v → Told (F.view fs.new) (λ w. Writes (WritesOf self.old v) v w) }
        ensures after { (v : View) → F.view fs.old ≡ Some v → OnOk result (Told (F.view fs.new) (λ w. Needs self.new w)) }
        ensures tells { (v : View) → F.view fs.old ≡ Some v → OnOk result (Tells self.old self.new v) }
        ensures fails { (v : View) → F.view fs.old ≡ Some v → IfErr result (Refuses self.old v) }
        ensures unchanged { (v : View) → F.view fs.old ≡ Some v → IsErrOf result err.NoMemory → F.view fs.new ≡ Some v }
        ensures stepped { IsStepped self.old result self.new }
        ensures falls { OnMore result (Falls self.new.phase self.old.phase) }
        ensures time { Elapses (F.clock fs.old) (F.clock fs.new) (F.was fs.old) (F.was fs.new) (F.view fs.new) }
        ensures ticks { OnOk result (Takes self.old.phase (F.clock fs.old) (F.clock fs.new)) }
        ensures cause { HasCause (F.faults fs.old) (F.faults fs.new) result }
        ensures room { KeepsRoom self.old.phase (F.spare fs.old) (F.spare fs.new) result }
    {
        let Phase::BeginLink(swap, sub) = self.phase else {
            unreachable!()
        };
        let link = version_link(self.alloc, version_of(swap), sub)?;
        self.folder = Some(folder_path(self.alloc, Folder::Ostree)?);
        self.phase = Phase::ShowLink(swap, sub, link);
        Ok(StepResult::More)
    }

    // puts the version's link in its place
    fn show_link<F: Fs>(&mut self, fs: &mut F) -> Result<StepResult<()>, FsErr>
        requires phase { IsShowLink self.old.phase }
        requires needs { (v : View) → F.view fs.old ≡ Some v → Needs self.old v }
        ensures writes { (v : View) → F.view fs.old ≡ Some v → Told (F.view fs.new) (λ w. Writes (WritesOf self.old v) v w) }
        ensures after { (v : View) → F.view fs.old ≡ Some v → OnOk result (Told (F.view fs.new) (λ w. Needs self.new w)) }
        ensures tells { (v : View) → F.view fs.old ≡ Some v → OnOk result (Tells self.old self.new v) }
        ensures fails { (v : View) → F.view fs.old ≡ Some v → IfErr result (Refuses self.old v) }
        ensures unchanged { (v : View) → F.view fs.old ≡ Some v → IsErrOf result err.NoMemory → F.view fs.new ≡ Some v }
        ensures stepped { IsStepped self.old result self.new }
        ensures falls { OnMore result (Falls self.new.phase self.old.phase) }
        ensures time { Elapses (F.clock fs.old) (F.clock fs.new) (F.was fs.old) (F.was fs.new) (F.view fs.new) }
        ensures ticks { OnOk result (Takes self.old.phase (F.clock fs.old) (F.clock fs.new)) }
        ensures cause { HasCause (F.faults fs.old) (F.faults fs.new) result }
        ensures room { KeepsRoom self.old.phase (F.spare fs.old) (F.spare fs.new) result }
    {
        let Phase::ShowLink(swap, sub, link) = &mut self.phase else {
            unreachable!()
        };
        let (swap, sub) = (*swap, *sub);
        match link.step(fs)? {
            StepResult::More => Ok(StepResult::More),
            StepResult::Done(()) => {
                self.phase = linked(swap, sub);
                Ok(StepResult::More)
            }
        }
    }

    // makes all that was made outlast a crash
    fn barrier<F: Fs>(&mut self, fs: &mut F) -> Result<StepResult<()>, FsErr>
        requires phase { IsBarrier self.old.phase }
        requires needs { (v : View) → F.view fs.old ≡ Some v → Needs self.old v }
        ensures writes { (v : View) → F.view fs.old ≡ Some v → Told (F.view fs.new) (λ w. Writes (WritesOf self.old v) v w) }
        ensures after { (v : View) → F.view fs.old ≡ Some v → OnOk result (Told (F.view fs.new) (λ w. Needs self.new w)) }
        ensures tells { (v : View) → F.view fs.old ≡ Some v → OnOk result (Tells self.old self.new v) }
        ensures fails { (v : View) → F.view fs.old ≡ Some v → IfErr result (Refuses self.old v) }
        ensures unchanged { (v : View) → F.view fs.old ≡ Some v → IsErrOf result err.NoMemory → F.view fs.new ≡ Some v }
        ensures stepped { IsStepped self.old result self.new }
        ensures falls { OnMore result (Falls self.new.phase self.old.phase) }
        ensures time { Elapses (F.clock fs.old) (F.clock fs.new) (F.was fs.old) (F.was fs.new) (F.view fs.new) }
        ensures ticks { OnOk result (Takes self.old.phase (F.clock fs.old) (F.clock fs.new)) }
        ensures cause { HasCause (F.faults fs.old) (F.faults fs.new) result }
        ensures room { KeepsRoom self.old.phase (F.spare fs.old) (F.spare fs.new) result }
    {
        let Phase::Barrier(swap, sub) = self.phase else {
            unreachable!()
        };
        fs.sync_all()?;
        self.phase = barred(swap, sub);
        Ok(StepResult::More)
    }

    // makes ready what puts the boot loader's link in its place
    fn begin_loader<F: Fs>(&mut self, fs: &mut F) -> Result<StepResult<()>, FsErr>
        requires phase { IsBeginLoader self.old.phase }
        requires needs { (v : View) → F.view fs.old ≡ Some v → Needs self.old v }
        ensures writes { (v : View) → F.view fs.old ≡ Some v → Told (F.view fs.new) (λ w. Writes (WritesOf self.old v) v w) }
        ensures after { (v : View) → F.view fs.old ≡ Some v → OnOk result (Told (F.view fs.new) (λ w. Needs self.new w)) }
        ensures tells { (v : View) → F.view fs.old ≡ Some v → OnOk result (Tells self.old self.new v) }
        ensures fails { (v : View) → F.view fs.old ≡ Some v → IfErr result (Refuses self.old v) }
        ensures unchanged { (v : View) → F.view fs.old ≡ Some v → IsErrOf result err.NoMemory → F.view fs.new ≡ Some v }
        ensures stepped { IsStepped self.old result self.new }
        ensures falls { OnMore result (Falls self.new.phase self.old.phase) }
        ensures time { Elapses (F.clock fs.old) (F.clock fs.new) (F.was fs.old) (F.was fs.new) (F.view fs.new) }
        ensures ticks { OnOk result (Takes self.old.phase (F.clock fs.old) (F.clock fs.new)) }
        ensures cause { HasCause (F.faults fs.old) (F.faults fs.new) result }
        ensures room { KeepsRoom self.old.phase (F.spare fs.old) (F.spare fs.new) result }
    {
        let Phase::BeginLoader(version) = self.phase else {
            unreachable!()
        };
        let link = loader_link(self.alloc, version)?;
        self.folder = Some(folder_path(self.alloc, Folder::Boot)?);
        self.phase = Phase::ShowLoader(version, link);
        Ok(StepResult::More)
    }

    // puts the boot loader's link in its place
    fn show_loader<F: Fs>(&mut self, fs: &mut F) -> Result<StepResult<()>, FsErr>
        requires phase { IsShowLoader self.old.phase }
        requires needs { (v : View) → F.view fs.old ≡ Some v → Needs self.old v }
        ensures writes { (v : View) → F.view fs.old ≡ Some v → Told (F.view fs.new) (λ w. Writes (WritesOf self.old v) v w) }
        ensures after { (v : View) → F.view fs.old ≡ Some v → OnOk result (Told (F.view fs.new) (λ w. Needs self.new w)) }
        ensures tells { (v : View) → F.view fs.old ≡ Some v → OnOk result (Tells self.old self.new v) }
        ensures fails { (v : View) → F.view fs.old ≡ Some v → IfErr result (Refuses self.old v) }
        ensures unchanged { (v : View) → F.view fs.old ≡ Some v → IsErrOf result err.NoMemory → F.view fs.new ≡ Some v }
        ensures stepped { IsStepped self.old result self.new }
        ensures falls { OnMore result (Falls self.new.phase self.old.phase) }
        ensures time { Elapses (F.clock fs.old) (F.clock fs.new) (F.was fs.old) (F.was fs.new) (F.view fs.new) }
        ensures ticks { OnOk result (Takes self.old.phase (F.clock fs.old) (F.clock fs.new)) }
        ensures cause { HasCause (F.faults fs.old) (F.faults fs.new) result }
        ensures room { KeepsRoom self.old.phase (F.spare fs.old) (F.spare fs.new) result }
    {
        let Phase::ShowLoader(version, link) = &mut self.phase else {
            unreachable!()
        };
        let version = *version;
        match link.step(fs)? {
            StepResult::More => Ok(StepResult::More),
            StepResult::Done(()) => {
                self.phase = Phase::SyncFolder(Swap::Loader(version));
                Ok(StepResult::More)
            }
        }
    }

    // makes the shown link outlast a crash
    fn sync_folder<F: Fs>(&mut self, fs: &mut F) -> Result<StepResult<()>, FsErr>
        requires phase { IsSyncFolder self.old.phase }
        requires needs { (v : View) → F.view fs.old ≡ Some v → Needs self.old v }
        ensures writes { (v : View) → F.view fs.old ≡ Some v → Told (F.view fs.new) (λ w. Writes (WritesOf self.old v) v w) }
        ensures after { (v : View) → F.view fs.old ≡ Some v → OnOk result (Told (F.view fs.new) (λ w. Needs self.new w)) }
        ensures tells { (v : View) → F.view fs.old ≡ Some v → OnOk result (Tells self.old self.new v) }
        ensures fails { (v : View) → F.view fs.old ≡ Some v → IfErr result (Refuses self.old v) }
        ensures unchanged { (v : View) → F.view fs.old ≡ Some v → IsErrOf result err.NoMemory → F.view fs.new ≡ Some v }
        ensures stepped { IsStepped self.old result self.new }
        ensures falls { OnMore result (Falls self.new.phase self.old.phase) }
        ensures time { Elapses (F.clock fs.old) (F.clock fs.new) (F.was fs.old) (F.was fs.new) (F.view fs.new) }
        ensures ticks { OnOk result (Takes self.old.phase (F.clock fs.old) (F.clock fs.new)) }
        ensures cause { HasCause (F.faults fs.old) (F.faults fs.new) result }
        ensures room { KeepsRoom self.old.phase (F.spare fs.old) (F.spare fs.new) result }
    {
        let Phase::SyncFolder(_) = self.phase else {
            unreachable!()
        };
        let Some(folder) = &self.folder else {
            unreachable!()
        };
        fs.sync_dir(folder)?;
        self.phase = Phase::Ended;
        Ok(StepResult::Done(()))
    }
}
