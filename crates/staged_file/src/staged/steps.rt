//! The steps of a staged file, one function a phase.
ghost use Rattle.std.specs.Prelude.{◌≡◌, ◌⊎◌, ◌<◌, true, Option, Some, OnOk, IfErr, IsErrOf};
ghost use Rattle.fs_trait.specs.View.{View};
ghost use Rattle.fs_trait.specs.Image.{Told};
ghost use Rattle.fs_trait.specs.declared.types.FsErr.TheVariants as err;
ghost use Rattle.fs_trait.specs.Effect.{Elapses, HasCause, OfPlacing};
ghost use Rattle.fs_trait.specs.Change.{Writes};
ghost use Rattle.staged_file.specs.declared.phase.Phase.TheVariants as phase;
ghost use Rattle.staged_file.specs.Staged.{is_directory, IsStepped, KeepsRoom, Takes, left, is_staging, phase_of};
ghost use Rattle.staged_file.specs.Steps.{Needs, WritesOf, Refuses};

use super::StagedFile;
use crate::Phase;
use fs_trait::{Fs, FsErr, Node, StepResult};

fn is_folder(node: &Option<Node>) -> bool
    ensures { result ≡ is_directory node.now }
{
    matches!(node, Some(Node::Folder(_)))
}

/// What comes next where the file is staged so far.
fn phase_of(staged: staging::Phase) -> Phase
    ensures { result ≡ phase_of staged }
{
    match staged {
        staging::Phase::Clear => Phase::Clear,
        staging::Phase::Create => Phase::Create,
        staging::Phase::Append => Phase::Append,
        staging::Phase::SyncFile => Phase::SyncFile,
        staging::Phase::Ended => Phase::Look,
    }
}

impl StagedFile {
    /// Does the next step: at most one changing call, and one reading call before it. After an error the task is
    /// unchanged, so that the step may be tried again.
    pub fn step<F: Fs>(&mut self, fs: &mut F) -> Result<StepResult<()>, FsErr>
        requires { (v : View) → F.view fs.old ≡ Some v → Needs self.old v }
        ensures writes { (v : View) → F.view fs.old ≡ Some v → Told (F.view fs.new) (λ w. Writes (WritesOf self.old v) v w) }
        ensures after { (v : View) → F.view fs.old ≡ Some v → OnOk result (Told (F.view fs.new) (λ w. Needs self.new w)) }
        ensures fails { (v : View) → F.view fs.old ≡ Some v → IfErr result (Refuses self.old v) }
        ensures named { IfErr result OfPlacing }
        ensures stepped { IsStepped self.old result self.new }
        ensures falls { OnOk result (left self.new < left self.old ⊎ (self.old.phase ≡ phase.Ended)) }
        ensures time { Elapses (F.clock fs.old) (F.clock fs.new) (F.was fs.old) (F.was fs.new) (F.view fs.new) }
        ensures ticks { OnOk result (Takes self.old.phase (F.clock fs.old) (F.clock fs.new)) }
        ensures cause { HasCause (F.faults fs.old) (F.faults fs.new) result }
        ensures room { KeepsRoom self.old.phase (F.spare fs.old) (F.spare fs.new) result }
        ensures unchanged { (v : View) → F.view fs.old ≡ Some v → IsErrOf result err.NoMemory → F.view fs.new ≡ Some v }
    {
        match self.phase {
            Phase::Clear | Phase::Create | Phase::Append | Phase::SyncFile => self.stage(fs),
            Phase::Look => self.look(fs),
            Phase::Replace => self.replace(fs),
            Phase::SyncFolder => self.sync_folder(fs),
            Phase::Ended => Ok(StepResult::Done(())),
        }
    }

    // a step of staging the file
    fn stage<F: Fs>(&mut self, fs: &mut F) -> Result<StepResult<()>, FsErr>
        requires phase { is_staging self.old.phase ≡ true }
        requires needs { (v : View) → F.view fs.old ≡ Some v → Needs self.old v }
        ensures writes { (v : View) → F.view fs.old ≡ Some v → Told (F.view fs.new) (λ w. Writes (WritesOf self.old v) v w) }
        ensures after { (v : View) → F.view fs.old ≡ Some v → OnOk result (Told (F.view fs.new) (λ w. Needs self.new w)) }
        ensures fails { (v : View) → F.view fs.old ≡ Some v → IfErr result (Refuses self.old v) }
        ensures named { IfErr result OfPlacing }
        ensures stepped { IsStepped self.old result self.new }
        ensures falls { OnOk result (left self.new < left self.old ⊎ (self.old.phase ≡ phase.Ended)) }
        ensures time { Elapses (F.clock fs.old) (F.clock fs.new) (F.was fs.old) (F.was fs.new) (F.view fs.new) }
        ensures ticks { OnOk result (Takes self.old.phase (F.clock fs.old) (F.clock fs.new)) }
        ensures cause { HasCause (F.faults fs.old) (F.faults fs.new) result }
        ensures room { KeepsRoom self.old.phase (F.spare fs.old) (F.spare fs.new) result }
        ensures unchanged { (v : View) → F.view fs.old ≡ Some v → IsErrOf result err.NoMemory → F.view fs.new ≡ Some v }
    {
        self.file.step(fs)?;
        self.phase = phase_of(self.file.phase());
        Ok(StepResult::More)
    }

    fn look<F: Fs>(&mut self, fs: &mut F) -> Result<StepResult<()>, FsErr>
        requires phase { self.old.phase ≡ phase.Look }
        requires needs { (v : View) → F.view fs.old ≡ Some v → Needs self.old v }
        ensures writes { (v : View) → F.view fs.old ≡ Some v → Told (F.view fs.new) (λ w. Writes (WritesOf self.old v) v w) }
        ensures after { (v : View) → F.view fs.old ≡ Some v → OnOk result (Told (F.view fs.new) (λ w. Needs self.new w)) }
        ensures fails { (v : View) → F.view fs.old ≡ Some v → IfErr result (Refuses self.old v) }
        ensures named { IfErr result OfPlacing }
        ensures stepped { IsStepped self.old result self.new }
        ensures falls { OnOk result (left self.new < left self.old ⊎ (self.old.phase ≡ phase.Ended)) }
        ensures time { Elapses (F.clock fs.old) (F.clock fs.new) (F.was fs.old) (F.was fs.new) (F.view fs.new) }
        ensures ticks { OnOk result (Takes self.old.phase (F.clock fs.old) (F.clock fs.new)) }
        ensures cause { HasCause (F.faults fs.old) (F.faults fs.new) result }
        ensures room { KeepsRoom self.old.phase (F.spare fs.old) (F.spare fs.new) result }
        ensures unchanged { (v : View) → F.view fs.old ≡ Some v → IsErrOf result err.NoMemory → F.view fs.new ≡ Some v }
    {
        if is_folder(&fs.stat(&self.at)?) {
            return Err(FsErr::Exists);
        }
        self.phase = Phase::Replace;
        Ok(StepResult::More)
    }

    fn replace<F: Fs>(&mut self, fs: &mut F) -> Result<StepResult<()>, FsErr>
        requires phase { self.old.phase ≡ phase.Replace }
        requires needs { (v : View) → F.view fs.old ≡ Some v → Needs self.old v }
        ensures writes { (v : View) → F.view fs.old ≡ Some v → Told (F.view fs.new) (λ w. Writes (WritesOf self.old v) v w) }
        ensures after { (v : View) → F.view fs.old ≡ Some v → OnOk result (Told (F.view fs.new) (λ w. Needs self.new w)) }
        ensures fails { (v : View) → F.view fs.old ≡ Some v → IfErr result (Refuses self.old v) }
        ensures named { IfErr result OfPlacing }
        ensures stepped { IsStepped self.old result self.new }
        ensures falls { OnOk result (left self.new < left self.old ⊎ (self.old.phase ≡ phase.Ended)) }
        ensures time { Elapses (F.clock fs.old) (F.clock fs.new) (F.was fs.old) (F.was fs.new) (F.view fs.new) }
        ensures ticks { OnOk result (Takes self.old.phase (F.clock fs.old) (F.clock fs.new)) }
        ensures cause { HasCause (F.faults fs.old) (F.faults fs.new) result }
        ensures room { KeepsRoom self.old.phase (F.spare fs.old) (F.spare fs.new) result }
        ensures unchanged { (v : View) → F.view fs.old ≡ Some v → IsErrOf result err.NoMemory → F.view fs.new ≡ Some v }
    {
        fs.reserve(2)?;
        fs.rename(self.file.stage(), &self.at)?;
        self.phase = Phase::SyncFolder;
        Ok(StepResult::More)
    }

    fn sync_folder<F: Fs>(&mut self, fs: &mut F) -> Result<StepResult<()>, FsErr>
        requires phase { self.old.phase ≡ phase.SyncFolder }
        requires needs { (v : View) → F.view fs.old ≡ Some v → Needs self.old v }
        ensures writes { (v : View) → F.view fs.old ≡ Some v → Told (F.view fs.new) (λ w. Writes (WritesOf self.old v) v w) }
        ensures after { (v : View) → F.view fs.old ≡ Some v → OnOk result (Told (F.view fs.new) (λ w. Needs self.new w)) }
        ensures fails { (v : View) → F.view fs.old ≡ Some v → IfErr result (Refuses self.old v) }
        ensures named { IfErr result OfPlacing }
        ensures stepped { IsStepped self.old result self.new }
        ensures falls { OnOk result (left self.new < left self.old ⊎ (self.old.phase ≡ phase.Ended)) }
        ensures time { Elapses (F.clock fs.old) (F.clock fs.new) (F.was fs.old) (F.was fs.new) (F.view fs.new) }
        ensures ticks { OnOk result (Takes self.old.phase (F.clock fs.old) (F.clock fs.new)) }
        ensures cause { HasCause (F.faults fs.old) (F.faults fs.new) result }
        ensures room { KeepsRoom self.old.phase (F.spare fs.old) (F.spare fs.new) result }
        ensures unchanged { (v : View) → F.view fs.old ≡ Some v → IsErrOf result err.NoMemory → F.view fs.new ≡ Some v }
    {
        fs.sync_dir(&self.folder)?;
        self.phase = Phase::Ended;
        Ok(StepResult::Done(()))
    }
}
