//! The steps of a change, one function a phase.
ghost use Rattle.std.specs.Prelude.{◌≡◌, ◌<◌, ℕ, Option, Some, OnOk, IfOk, IfErr, IsErrOf, IsSome, length};
ghost use Rattle.fs_trait.specs.View.{View};
ghost use Rattle.fs_trait.specs.Image.{Told};
ghost use Rattle.fs_trait.specs.declared.types.FsErr.TheVariants as err;
ghost use Rattle.fs_trait.specs.Effect.{Elapses, HasCause};
ghost use Rattle.fs_trait.specs.Change.{Writes};
ghost use Rattle.repo_layout.specs.RefFile.{IsSum, ref_text};
ghost use Rattle.ref_room.specs.Turns.{OnMore};
ghost use Rattle.ref_store.specs.Change.{Change, IsLook, IsClear, IsWalk, IsPut, IsUnlink, IsSyncFolder, IsAccepted, IsStepped, MayCome, KeepsRoom, IsNew, Takes, begun, commit_of, file_meta, left};
ghost use Rattle.ref_store.specs.Steps.{Needs, WritesOf, Refuses, Tells, OfPhase};

use super::RefTask;
use crate::RefRefusal;
use crate::lookup::{There, look};
use crate::phase::Phase;
use fs_trait::{Fs, FsErr, Need, StepResult};
use ost_types::{Bytes, Csum, Meta, NoMemory, TryCopy, Xattrs};
use ref_room::{Clearing, Way, ref_folder};
use repo_layout::{ref_path, ref_text, stage_path};
use staged_file::{Plan, StagedFile};
use std::alloc::Global;

impl RefTask {
    /// Does the next step: at most one changing call, or two reading calls. After an error and after a refusal the task is
    /// unchanged, so that the step may be tried again.
    pub fn step<F: Fs>(&mut self, fs: &mut F) -> Result<StepResult<Result<(), RefRefusal>>, FsErr>
        requires { (v : View) → F.view fs.old ≡ Some v → Needs self.old v }
        ensures writes { (v : View) → F.view fs.old ≡ Some v → Told (F.view fs.new) (λ w. Writes (WritesOf self.old v) v w) }
        ensures after { (v : View) → F.view fs.old ≡ Some v → OnOk result (Told (F.view fs.new) (λ w. Needs self.new w)) }
        ensures tells { (v : View) → F.view fs.old ≡ Some v → IfOk result (Tells self.old self.new v) }
        ensures fails { (v : View) → F.view fs.old ≡ Some v → IfErr result (Refuses self.old v) }
        ensures named { IfErr result (OfPhase self.old.phase) }
        ensures stepped { IsStepped self.old result self.new }
        ensures refuses { IfOk result (MayCome self.old.phase) }
        ensures falls { OnMore result (left self.new < left self.old) }
        ensures time { Elapses (F.clock fs.old) (F.clock fs.new) (F.was fs.old) (F.was fs.new) (F.view fs.new) }
        ensures ticks { OnOk result (Takes self.old.phase (F.clock fs.old) (F.clock fs.new)) }
        ensures cause { HasCause (F.faults fs.old) (F.faults fs.new) result }
        ensures room { KeepsRoom self.old.phase (F.spare fs.old) (F.spare fs.new) result }
        ensures unchanged { (v : View) → F.view fs.old ≡ Some v → IsErrOf result err.NoMemory → F.view fs.new ≡ Some v }
    {
        match self.phase {
            Phase::Look => self.look(fs),
            Phase::Clear(_) => self.clear(fs),
            Phase::Walk(_) => self.walk(fs),
            Phase::Put(_) => self.put(fs),
            Phase::Unlink => self.unlink(fs),
            Phase::SyncFolder => self.sync_folder(fs),
            Phase::Ended => Ok(StepResult::Done(Ok(()))),
        }
    }

    fn look<F: Fs>(&mut self, fs: &mut F) -> Result<StepResult<Result<(), RefRefusal>>, FsErr>
        requires phase { IsLook self.old.phase }
        requires needs { (v : View) → F.view fs.old ≡ Some v → Needs self.old v }
        ensures writes { (v : View) → F.view fs.old ≡ Some v → Told (F.view fs.new) (λ w. Writes (WritesOf self.old v) v w) }
        ensures after { (v : View) → F.view fs.old ≡ Some v → OnOk result (Told (F.view fs.new) (λ w. Needs self.new w)) }
        ensures tells { (v : View) → F.view fs.old ≡ Some v → IfOk result (Tells self.old self.new v) }
        ensures fails { (v : View) → F.view fs.old ≡ Some v → IfErr result (Refuses self.old v) }
        ensures named { IfErr result (OfPhase self.old.phase) }
        ensures stepped { IsStepped self.old result self.new }
        ensures falls { OnMore result (left self.new < left self.old) }
        ensures time { Elapses (F.clock fs.old) (F.clock fs.new) (F.was fs.old) (F.was fs.new) (F.view fs.new) }
        ensures ticks { OnOk result (Takes self.old.phase (F.clock fs.old) (F.clock fs.new)) }
        ensures cause { HasCause (F.faults fs.old) (F.faults fs.new) result }
        ensures room { KeepsRoom self.old.phase (F.spare fs.old) (F.spare fs.new) result }
        ensures unchanged { (v : View) → F.view fs.old ≡ Some v → IsErrOf result err.NoMemory → F.view fs.new ≡ Some v }
    {
        let at = ref_path(self.alloc, &self.name)?;
        let there = look(fs, &at)?;
        if there == There::OtherLeaf {
            return Err(FsErr::Exists);
        }
        let now = commit_of(there);
        if now != self.seen {
            let seen = self.seen;
            return Ok(StepResult::Done(Err(RefRefusal::RefMoved { seen, now })));
        }
        self.phase = self.begun(there)?;
        Ok(StepResult::More)
    }

    // what follows the look
    fn begun(&self, there: There) -> Result<Phase, NoMemory>
        ensures { IfOk result (λ p. p ≡ begun self.now.value there self.now.name) }
    {
        if self.value.is_none() {
            return Ok(Phase::Unlink);
        }
        let name = self.name.copy()?;
        Ok(match there {
            There::Folder => Phase::Clear(Clearing::new(self.alloc, name)?),
            _ => Phase::Walk(Way::new(self.alloc, name)?),
        })
    }

    fn clear<F: Fs>(&mut self, fs: &mut F) -> Result<StepResult<Result<(), RefRefusal>>, FsErr>
        requires phase { IsClear self.old.phase }
        requires needs { (v : View) → F.view fs.old ≡ Some v → Needs self.old v }
        ensures writes { (v : View) → F.view fs.old ≡ Some v → Told (F.view fs.new) (λ w. Writes (WritesOf self.old v) v w) }
        ensures after { (v : View) → F.view fs.old ≡ Some v → OnOk result (Told (F.view fs.new) (λ w. Needs self.new w)) }
        ensures tells { (v : View) → F.view fs.old ≡ Some v → IfOk result (Tells self.old self.new v) }
        ensures fails { (v : View) → F.view fs.old ≡ Some v → IfErr result (Refuses self.old v) }
        ensures named { IfErr result (OfPhase self.old.phase) }
        ensures stepped { IsStepped self.old result self.new }
        ensures falls { OnMore result (left self.new < left self.old) }
        ensures time { Elapses (F.clock fs.old) (F.clock fs.new) (F.was fs.old) (F.was fs.new) (F.view fs.new) }
        ensures ticks { OnOk result (Takes self.old.phase (F.clock fs.old) (F.clock fs.new)) }
        ensures cause { HasCause (F.faults fs.old) (F.faults fs.new) result }
        ensures room { KeepsRoom self.old.phase (F.spare fs.old) (F.spare fs.new) result }
        ensures unchanged { (v : View) → F.view fs.old ≡ Some v → IsErrOf result err.NoMemory → F.view fs.new ≡ Some v }
    {
        let Phase::Clear(clearing) = &mut self.phase else {
            unreachable!()
        };
        match clearing.step(fs)? {
            StepResult::More => Ok(StepResult::More),
            StepResult::Done(Some(other)) => Ok(StepResult::Done(Err(RefRefusal::RefClash(other)))),
            StepResult::Done(None) => {
                self.phase = Phase::Walk(Way::new(self.alloc, self.name.copy()?)?);
                Ok(StepResult::More)
            }
        }
    }

    fn walk<F: Fs>(&mut self, fs: &mut F) -> Result<StepResult<Result<(), RefRefusal>>, FsErr>
        requires phase { IsWalk self.old.phase }
        requires needs { (v : View) → F.view fs.old ≡ Some v → Needs self.old v }
        ensures writes { (v : View) → F.view fs.old ≡ Some v → Told (F.view fs.new) (λ w. Writes (WritesOf self.old v) v w) }
        ensures after { (v : View) → F.view fs.old ≡ Some v → OnOk result (Told (F.view fs.new) (λ w. Needs self.new w)) }
        ensures tells { (v : View) → F.view fs.old ≡ Some v → IfOk result (Tells self.old self.new v) }
        ensures fails { (v : View) → F.view fs.old ≡ Some v → IfErr result (Refuses self.old v) }
        ensures named { IfErr result (OfPhase self.old.phase) }
        ensures stepped { IsStepped self.old result self.new }
        ensures falls { OnMore result (left self.new < left self.old) }
        ensures time { Elapses (F.clock fs.old) (F.clock fs.new) (F.was fs.old) (F.was fs.new) (F.view fs.new) }
        ensures ticks { OnOk result (Takes self.old.phase (F.clock fs.old) (F.clock fs.new)) }
        ensures cause { HasCause (F.faults fs.old) (F.faults fs.new) result }
        ensures room { KeepsRoom self.old.phase (F.spare fs.old) (F.spare fs.new) result }
        ensures unchanged { (v : View) → F.view fs.old ≡ Some v → IsErrOf result err.NoMemory → F.view fs.new ≡ Some v }
    {
        let Phase::Walk(way) = &mut self.phase else {
            unreachable!()
        };
        let was_over = way.is_over();
        match way.step(fs)? {
            StepResult::More => Ok(StepResult::More),
            StepResult::Done(Some(other)) => Ok(StepResult::Done(Err(RefRefusal::RefClash(other)))),
            StepResult::Done(None) => {
                if !was_over {
                    return Ok(StepResult::More);
                }
                self.phase = Phase::Put(self.new_file()?);
                Ok(StepResult::More)
            }
        }
    }

    // the ref's file, to be put at its path
    fn new_file(&self) -> Result<StagedFile, NoMemory>
        requires { IsSome self.now.value }
        ensures { IfOk result (IsNew self.now) }
    {
        let Some(commit) = &self.value else {
            unreachable!()
        };
        Ok(StagedFile::new(Plan {
            stage: stage_path(self.alloc, self.actor)?,
            folder: ref_folder(self.alloc, &self.name)?,
            at: ref_path(self.alloc, &self.name)?,
            meta: file_meta(self.alloc),
            bytes: file_bytes(self.alloc, commit)?,
            lock: Need::RefLock,
        }))
    }

    fn put<F: Fs>(&mut self, fs: &mut F) -> Result<StepResult<Result<(), RefRefusal>>, FsErr>
        requires phase { IsPut self.old.phase }
        requires needs { (v : View) → F.view fs.old ≡ Some v → Needs self.old v }
        ensures writes { (v : View) → F.view fs.old ≡ Some v → Told (F.view fs.new) (λ w. Writes (WritesOf self.old v) v w) }
        ensures after { (v : View) → F.view fs.old ≡ Some v → OnOk result (Told (F.view fs.new) (λ w. Needs self.new w)) }
        ensures tells { (v : View) → F.view fs.old ≡ Some v → IfOk result (Tells self.old self.new v) }
        ensures fails { (v : View) → F.view fs.old ≡ Some v → IfErr result (Refuses self.old v) }
        ensures named { IfErr result (OfPhase self.old.phase) }
        ensures stepped { IsStepped self.old result self.new }
        ensures accepts { IfOk result IsAccepted }
        ensures falls { OnMore result (left self.new < left self.old) }
        ensures time { Elapses (F.clock fs.old) (F.clock fs.new) (F.was fs.old) (F.was fs.new) (F.view fs.new) }
        ensures ticks { OnOk result (Takes self.old.phase (F.clock fs.old) (F.clock fs.new)) }
        ensures cause { HasCause (F.faults fs.old) (F.faults fs.new) result }
        ensures room { KeepsRoom self.old.phase (F.spare fs.old) (F.spare fs.new) result }
        ensures unchanged { (v : View) → F.view fs.old ≡ Some v → IsErrOf result err.NoMemory → F.view fs.new ≡ Some v }
    {
        let Phase::Put(file) = &mut self.phase else {
            unreachable!()
        };
        match file.step(fs)? {
            StepResult::More => Ok(StepResult::More),
            StepResult::Done(()) => {
                self.phase = Phase::Ended;
                Ok(StepResult::Done(Ok(())))
            }
        }
    }

    fn unlink<F: Fs>(&mut self, fs: &mut F) -> Result<StepResult<Result<(), RefRefusal>>, FsErr>
        requires phase { IsUnlink self.old.phase }
        requires needs { (v : View) → F.view fs.old ≡ Some v → Needs self.old v }
        ensures writes { (v : View) → F.view fs.old ≡ Some v → Told (F.view fs.new) (λ w. Writes (WritesOf self.old v) v w) }
        ensures after { (v : View) → F.view fs.old ≡ Some v → OnOk result (Told (F.view fs.new) (λ w. Needs self.new w)) }
        ensures tells { (v : View) → F.view fs.old ≡ Some v → IfOk result (Tells self.old self.new v) }
        ensures fails { (v : View) → F.view fs.old ≡ Some v → IfErr result (Refuses self.old v) }
        ensures named { IfErr result (OfPhase self.old.phase) }
        ensures stepped { IsStepped self.old result self.new }
        ensures accepts { IfOk result IsAccepted }
        ensures falls { OnMore result (left self.new < left self.old) }
        ensures time { Elapses (F.clock fs.old) (F.clock fs.new) (F.was fs.old) (F.was fs.new) (F.view fs.new) }
        ensures ticks { OnOk result (Takes self.old.phase (F.clock fs.old) (F.clock fs.new)) }
        ensures cause { HasCause (F.faults fs.old) (F.faults fs.new) result }
        ensures room { KeepsRoom self.old.phase (F.spare fs.old) (F.spare fs.new) result }
        ensures unchanged { (v : View) → F.view fs.old ≡ Some v → IsErrOf result err.NoMemory → F.view fs.new ≡ Some v }
    {
        let at = ref_path(self.alloc, &self.name)?;
        let folder = ref_folder(self.alloc, &self.name)?;
        fs.reserve(2)?;
        fs.unlink(&at)?;
        self.folder = Some(folder);
        self.phase = Phase::SyncFolder;
        Ok(StepResult::More)
    }

    fn sync_folder<F: Fs>(
        &mut self,
        fs: &mut F,
    ) -> Result<StepResult<Result<(), RefRefusal>>, FsErr>
        requires phase { IsSyncFolder self.old.phase }
        requires needs { (v : View) → F.view fs.old ≡ Some v → Needs self.old v }
        ensures writes { (v : View) → F.view fs.old ≡ Some v → Told (F.view fs.new) (λ w. Writes (WritesOf self.old v) v w) }
        ensures after { (v : View) → F.view fs.old ≡ Some v → OnOk result (Told (F.view fs.new) (λ w. Needs self.new w)) }
        ensures tells { (v : View) → F.view fs.old ≡ Some v → IfOk result (Tells self.old self.new v) }
        ensures fails { (v : View) → F.view fs.old ≡ Some v → IfErr result (Refuses self.old v) }
        ensures named { IfErr result (OfPhase self.old.phase) }
        ensures stepped { IsStepped self.old result self.new }
        ensures accepts { IfOk result IsAccepted }
        ensures falls { OnMore result (left self.new < left self.old) }
        ensures time { Elapses (F.clock fs.old) (F.clock fs.new) (F.was fs.old) (F.was fs.new) (F.view fs.new) }
        ensures ticks { OnOk result (Takes self.old.phase (F.clock fs.old) (F.clock fs.new)) }
        ensures cause { HasCause (F.faults fs.old) (F.faults fs.new) result }
        ensures room { KeepsRoom self.old.phase (F.spare fs.old) (F.spare fs.new) result }
        ensures unchanged { (v : View) → F.view fs.old ≡ Some v → IsErrOf result err.NoMemory → F.view fs.new ≡ Some v }
    {
        let Some(folder) = &self.folder else {
            unreachable!()
        };
        fs.sync_dir(folder)?;
        self.phase = Phase::Ended;
        Ok(StepResult::Done(Ok(())))
    }
}

fn commit_of(there: There) -> Option<Csum>
    ensures { result ≡ commit_of there }
{
    match there {
        There::Commit(commit) => Some(commit),
        _ => None,
    }
}

// owner 0, group 0, mode 0o100644
fn file_meta(alloc: Global) -> Meta
    ensures { result ≡ file_meta }
{
    Meta {
        uid: 0,
        gid: 0,
        mode: 0o100644,
        xattrs: Xattrs::new(alloc),
    }
}

fn file_bytes(alloc: Global, commit: &Csum) -> Result<Bytes, NoMemory>
    ensures text { IfOk result (λ b. b ≡ ref_text commit.now) }
    ensures long { IfOk result (λ b. length b ≡ 65) }
    ensures sum { OnOk result (IsSum commit.now) }
{
    let _digits = commit.as_slice();
    Bytes::from_slice(alloc, &ref_text(commit))
}
