//! The steps of putting an object, one function a phase.
ghost use Rattle.std.specs.Prelude.{◌≡◌, ◌≤◌, ◌<◌, ◌+◌, ℕ, Option, Some, OnOk, IfOk, IfErr, IsErrOf};
ghost use Rattle.fs_trait.specs.View.{View};
ghost use Rattle.fs_trait.specs.Image.{Told};
ghost use Rattle.fs_trait.specs.Effect.{Elapses, HasCause};
ghost use Rattle.fs_trait.specs.Change.{Writes};
ghost use Rattle.fs_trait.specs.declared.types.FsErr.TheVariants as err;
ghost use Rattle.ost_types.specs.Mode.{IsFolderMode};
ghost use Rattle.obj_store.specs.declared.phase.Phase.TheVariants as phase;
ghost use Rattle.obj_store.specs.Putting.{Putting, IsStepped, IsUnlink, OnMore, Takes, left, is_file, shown_next, shown_turn};
ghost use Rattle.obj_store.specs.Steps.{Needs, WritesOf, Refuses, Tells, OfPhase};

use super::PutTask;
use crate::phase::{Phase, Put};
use crate::source::Source;
use fs_trait::{Fs, FsErr, Node, StepResult};
use ost_types::{Meta, Xattrs};
use std::alloc::Global;

impl PutTask {
    /// Does the next step: at most one changing call and two reading ones. After an error the task is unchanged, so that the
    /// step may be tried again.
    pub fn step<F: Fs>(&mut self, fs: &mut F) -> Result<StepResult<Put>, FsErr>
        requires { (v : View) → F.view fs.old ≡ Some v → Needs self.old v }
        ensures writes { (v : View) → F.view fs.old ≡ Some v → Told (F.view fs.new) (λ w. Writes (WritesOf self.old v) v w) }
        ensures after { (v : View) → F.view fs.old ≡ Some v → OnOk result (Told (F.view fs.new) (λ w. Needs self.new w)) }
        ensures tells { (v : View) → F.view fs.old ≡ Some v → IfOk result (λ turn. Told (F.view fs.new) (λ w. Tells self.old self.new v w turn)) }
        ensures fails { (v : View) → F.view fs.old ≡ Some v → IfErr result (Refuses self.old v) }
        ensures unchanged { (v : View) → F.view fs.old ≡ Some v → IsErrOf result err.NoMemory → F.view fs.new ≡ Some v }
        ensures named { IfErr result (OfPhase self.old.phase) }
        ensures stepped { IsStepped self.old result self.new }
        ensures falls { OnMore result (left self.new < left self.old) }
        ensures time { Elapses (F.clock fs.old) (F.clock fs.new) (F.was fs.old) (F.was fs.new) (F.view fs.new) }
        ensures ticks { OnOk result (Takes self.old.phase (F.clock fs.old) (F.clock fs.new)) }
        ensures cause { HasCause (F.faults fs.old) (F.faults fs.new) result }
        ensures room { F.spare fs.old ≤ F.spare fs.new + 1 }
    {
        match self.phase {
            Phase::Look => self.look(fs),
            Phase::Stage => self.stage(fs),
            Phase::Folder => self.make_folder(fs),
            Phase::Link => self.link(fs),
            Phase::Unlink(_) => self.unlink(fs),
            Phase::Ended(put) => Ok(StepResult::Done(put)),
        }
    }

    fn look<F: Fs>(&mut self, fs: &mut F) -> Result<StepResult<Put>, FsErr>
        requires phase { self.old.phase ≡ phase.Look }
        requires needs { (v : View) → F.view fs.old ≡ Some v → Needs self.old v }
        ensures writes { (v : View) → F.view fs.old ≡ Some v → Told (F.view fs.new) (λ w. Writes (WritesOf self.old v) v w) }
        ensures after { (v : View) → F.view fs.old ≡ Some v → OnOk result (Told (F.view fs.new) (λ w. Needs self.new w)) }
        ensures tells { (v : View) → F.view fs.old ≡ Some v → IfOk result (λ turn. Told (F.view fs.new) (λ w. Tells self.old self.new v w turn)) }
        ensures fails { (v : View) → F.view fs.old ≡ Some v → IfErr result (Refuses self.old v) }
        ensures unchanged { (v : View) → F.view fs.old ≡ Some v → IsErrOf result err.NoMemory → F.view fs.new ≡ Some v }
        ensures named { IfErr result (OfPhase self.old.phase) }
        ensures stepped { IsStepped self.old result self.new }
        ensures falls { OnMore result (left self.new < left self.old) }
        ensures time { Elapses (F.clock fs.old) (F.clock fs.new) (F.was fs.old) (F.was fs.new) (F.view fs.new) }
        ensures ticks { OnOk result (Takes self.old.phase (F.clock fs.old) (F.clock fs.new)) }
        ensures cause { HasCause (F.faults fs.old) (F.faults fs.new) result }
        ensures room { F.spare fs.old ≤ F.spare fs.new + 1 }
    {
        if fs.stat(&self.at)?.is_some() {
            self.phase = Phase::Ended(Put::Present);
            return Ok(StepResult::Done(Put::Present));
        }
        match &mut self.source {
            Source::File(staging) => {
                staging.step(fs)?;
                self.phase = Phase::Stage;
            }
            Source::Link { .. } => self.phase = Phase::Folder,
        }
        Ok(StepResult::More)
    }

    fn stage<F: Fs>(&mut self, fs: &mut F) -> Result<StepResult<Put>, FsErr>
        requires phase { self.old.phase ≡ phase.Stage }
        requires needs { (v : View) → F.view fs.old ≡ Some v → Needs self.old v }
        ensures writes { (v : View) → F.view fs.old ≡ Some v → Told (F.view fs.new) (λ w. Writes (WritesOf self.old v) v w) }
        ensures after { (v : View) → F.view fs.old ≡ Some v → OnOk result (Told (F.view fs.new) (λ w. Needs self.new w)) }
        ensures tells { (v : View) → F.view fs.old ≡ Some v → IfOk result (λ turn. Told (F.view fs.new) (λ w. Tells self.old self.new v w turn)) }
        ensures fails { (v : View) → F.view fs.old ≡ Some v → IfErr result (Refuses self.old v) }
        ensures unchanged { (v : View) → F.view fs.old ≡ Some v → IsErrOf result err.NoMemory → F.view fs.new ≡ Some v }
        ensures named { IfErr result (OfPhase self.old.phase) }
        ensures stepped { IsStepped self.old result self.new }
        ensures falls { OnMore result (left self.new < left self.old) }
        ensures time { Elapses (F.clock fs.old) (F.clock fs.new) (F.was fs.old) (F.was fs.new) (F.view fs.new) }
        ensures ticks { OnOk result (Takes self.old.phase (F.clock fs.old) (F.clock fs.new)) }
        ensures cause { HasCause (F.faults fs.old) (F.faults fs.new) result }
        ensures room { F.spare fs.old ≤ F.spare fs.new + 1 }
    {
        let Source::File(staging) = &mut self.source else {
            unreachable!()
        };
        match staging.step(fs)? {
            StepResult::More => {}
            StepResult::Done(()) => self.phase = Phase::Folder,
        }
        Ok(StepResult::More)
    }

    fn make_folder<F: Fs>(&mut self, fs: &mut F) -> Result<StepResult<Put>, FsErr>
        requires phase { self.old.phase ≡ phase.Folder }
        requires needs { (v : View) → F.view fs.old ≡ Some v → Needs self.old v }
        ensures writes { (v : View) → F.view fs.old ≡ Some v → Told (F.view fs.new) (λ w. Writes (WritesOf self.old v) v w) }
        ensures after { (v : View) → F.view fs.old ≡ Some v → OnOk result (Told (F.view fs.new) (λ w. Needs self.new w)) }
        ensures tells { (v : View) → F.view fs.old ≡ Some v → IfOk result (λ turn. Told (F.view fs.new) (λ w. Tells self.old self.new v w turn)) }
        ensures fails { (v : View) → F.view fs.old ≡ Some v → IfErr result (Refuses self.old v) }
        ensures unchanged { (v : View) → F.view fs.old ≡ Some v → IsErrOf result err.NoMemory → F.view fs.new ≡ Some v }
        ensures named { IfErr result (OfPhase self.old.phase) }
        ensures stepped { IsStepped self.old result self.new }
        ensures falls { OnMore result (left self.new < left self.old) }
        ensures time { Elapses (F.clock fs.old) (F.clock fs.new) (F.was fs.old) (F.was fs.new) (F.view fs.new) }
        ensures ticks { OnOk result (Takes self.old.phase (F.clock fs.old) (F.clock fs.new)) }
        ensures cause { HasCause (F.faults fs.old) (F.faults fs.new) result }
        ensures room { F.spare fs.old ≤ F.spare fs.new + 1 }
    {
        match fs.stat(&self.folder)? {
            None => fs.mkdir(&self.folder, &folder_meta(self.alloc))?,
            Some(Node::Folder(_)) => {}
            Some(_) => return Err(FsErr::NotFolder),
        }
        self.phase = Phase::Link;
        Ok(StepResult::More)
    }

    fn link<F: Fs>(&mut self, fs: &mut F) -> Result<StepResult<Put>, FsErr>
        requires phase { self.old.phase ≡ phase.Link }
        requires needs { (v : View) → F.view fs.old ≡ Some v → Needs self.old v }
        ensures writes { (v : View) → F.view fs.old ≡ Some v → Told (F.view fs.new) (λ w. Writes (WritesOf self.old v) v w) }
        ensures after { (v : View) → F.view fs.old ≡ Some v → OnOk result (Told (F.view fs.new) (λ w. Needs self.new w)) }
        ensures tells { (v : View) → F.view fs.old ≡ Some v → IfOk result (λ turn. Told (F.view fs.new) (λ w. Tells self.old self.new v w turn)) }
        ensures fails { (v : View) → F.view fs.old ≡ Some v → IfErr result (Refuses self.old v) }
        ensures unchanged { (v : View) → F.view fs.old ≡ Some v → IsErrOf result err.NoMemory → F.view fs.new ≡ Some v }
        ensures named { IfErr result (OfPhase self.old.phase) }
        ensures stepped { IsStepped self.old result self.new }
        ensures falls { OnMore result (left self.new < left self.old) }
        ensures time { Elapses (F.clock fs.old) (F.clock fs.new) (F.was fs.old) (F.was fs.new) (F.view fs.new) }
        ensures ticks { OnOk result (Takes self.old.phase (F.clock fs.old) (F.clock fs.new)) }
        ensures cause { HasCause (F.faults fs.old) (F.faults fs.new) result }
        ensures room { F.spare fs.old ≤ F.spare fs.new + 1 }
    {
        // what stands there already stays
        if fs.stat(&self.at)?.is_some() {
            return Ok(self.shown(Put::Present));
        }
        match &self.source {
            Source::File(staging) => fs.link(staging.stage(), &self.at)?,
            Source::Link { meta, target } => fs.symlink(&self.at, target, meta)?,
        }
        Ok(self.shown(Put::Stored))
    }

    fn unlink<F: Fs>(&mut self, fs: &mut F) -> Result<StepResult<Put>, FsErr>
        requires phase { IsUnlink self.old.phase }
        requires needs { (v : View) → F.view fs.old ≡ Some v → Needs self.old v }
        ensures writes { (v : View) → F.view fs.old ≡ Some v → Told (F.view fs.new) (λ w. Writes (WritesOf self.old v) v w) }
        ensures after { (v : View) → F.view fs.old ≡ Some v → OnOk result (Told (F.view fs.new) (λ w. Needs self.new w)) }
        ensures tells { (v : View) → F.view fs.old ≡ Some v → IfOk result (λ turn. Told (F.view fs.new) (λ w. Tells self.old self.new v w turn)) }
        ensures fails { (v : View) → F.view fs.old ≡ Some v → IfErr result (Refuses self.old v) }
        ensures unchanged { (v : View) → F.view fs.old ≡ Some v → IsErrOf result err.NoMemory → F.view fs.new ≡ Some v }
        ensures named { IfErr result (OfPhase self.old.phase) }
        ensures stepped { IsStepped self.old result self.new }
        ensures falls { OnMore result (left self.new < left self.old) }
        ensures time { Elapses (F.clock fs.old) (F.clock fs.new) (F.was fs.old) (F.was fs.new) (F.view fs.new) }
        ensures ticks { OnOk result (Takes self.old.phase (F.clock fs.old) (F.clock fs.new)) }
        ensures cause { HasCause (F.faults fs.old) (F.faults fs.new) result }
        ensures room { F.spare fs.old ≤ F.spare fs.new + 1 }
    {
        let Phase::Unlink(put) = self.phase else {
            unreachable!()
        };
        let Source::File(staging) = &self.source else {
            unreachable!()
        };
        fs.unlink(staging.stage())?;
        self.phase = Phase::Ended(put);
        Ok(StepResult::Done(put))
    }

    // the object's path is seen to; a file's staging path is still there
    fn shown(&mut self, put: Put) -> StepResult<Put>
        requires { self.old.phase ≡ phase.Link }
        ensures next { self.new ≡ shown_next put self.old }
        ensures turn { result ≡ shown_turn put self.old }
    {
        match self.source {
            Source::File(_) => {
                self.phase = Phase::Unlink(put);
                StepResult::More
            }
            Source::Link { .. } => {
                self.phase = Phase::Ended(put);
                StepResult::Done(put)
            }
        }
    }
}

// owner 0, group 0, mode 0o40755
fn folder_meta(alloc: Global) -> Meta
    ensures { IsFolderMode result.mode }
{
    Meta {
        uid: 0,
        gid: 0,
        mode: 0o40755,
        xattrs: Xattrs::new(alloc),
    }
}
