//! The steps of a copy, one function a phase.
ghost use Rattle.std.specs.Prelude.{◌≡◌, ◌⊎◌, ◌≤◌, ◌<◌, ◌+◌, Some, OnOk, IfErr, IsErrOf};
ghost use Rattle.fs_trait.specs.View.{View};
ghost use Rattle.fs_trait.specs.Image.{Told};
ghost use Rattle.fs_trait.specs.Effect.{Elapses, HasCause, OfNone, OfPlacing};
ghost use Rattle.fs_trait.specs.Change.{Writes};
ghost use Rattle.fs_trait.specs.declared.types.FsErr.TheVariants as err;
ghost use Rattle.staging.specs.declared.phase.Phase.TheVariants as phase;
ghost use Rattle.staging.specs.Draft.{Takes};
ghost use Rattle.file_copy.specs.Pieces.{piece_end};
ghost use Rattle.file_copy.specs.Copying.{IsStepped, filled, left};
ghost use Rattle.file_copy.specs.CopySteps.{Needs, WritesOf};

use super::FileCopy;
use crate::pieces::{file_size, piece_end, read_piece};
use fs_trait::{Fs, FsErr, StepResult};
use staging::Phase;

impl FileCopy {
    /// Does the next step: at most one changing call, and one reading call before it. After an error the task is
    /// unchanged, so that the step may be tried again. `Missing` comes, too, where the file that is copied ends early.
    pub fn step<F: Fs>(&mut self, fs: &mut F) -> Result<StepResult<()>, FsErr>
        requires { (v : View) → F.view fs.old ≡ Some v → Needs self.old v }
        ensures writes { (v : View) → F.view fs.old ≡ Some v → Told (F.view fs.new) (λ w. Writes (WritesOf self.old v) v w) }
        ensures after { (v : View) → F.view fs.old ≡ Some v → OnOk result (Told (F.view fs.new) (λ w. Needs self.new w)) }
        ensures pieces { (v : View) → F.view fs.old ≡ Some v → OnOk result (self.old.phase ≡ phase.Append → self.new.written ≡ piece_end self.old.size self.old.written) }
        ensures fails { (v : View) → F.view fs.old ≡ Some v → IfErr result OfNone }
        ensures named { IfErr result OfPlacing }
        ensures stepped { IsStepped self.old result self.new }
        ensures falls { OnOk result (left self.new < left self.old ⊎ (self.old.phase ≡ phase.Ended)) }
        ensures time { Elapses (F.clock fs.old) (F.clock fs.new) (F.was fs.old) (F.was fs.new) (F.view fs.new) }
        ensures ticks { OnOk result (Takes self.old.phase (F.clock fs.old) (F.clock fs.new)) }
        ensures cause { HasCause (F.faults fs.old) (F.faults fs.new) result }
        ensures room { F.spare fs.old ≤ F.spare fs.new + 1 }
        ensures unchanged { (v : View) → F.view fs.old ≡ Some v → IsErrOf result err.NoMemory → F.view fs.new ≡ Some v }
    {
        match self.phase {
            Phase::Clear => self.clear(fs),
            Phase::Create => self.create(fs),
            Phase::Append => self.append(fs),
            Phase::SyncFile => self.sync_file(fs),
            Phase::Ended => Ok(StepResult::Done(())),
        }
    }

    // so many of so many bytes are staged
    fn filled(&mut self, size: u64, count: u64)
        requires { count ≤ size }
        ensures { self.new ≡ filled count (record self.old { size = size }) }
    {
        self.size = size;
        self.written = count;
        self.phase = if count < size {
            Phase::Append
        } else {
            Phase::SyncFile
        };
    }

    fn clear<F: Fs>(&mut self, fs: &mut F) -> Result<StepResult<()>, FsErr>
        requires phase { self.old.phase ≡ phase.Clear }
        requires needs { (v : View) → F.view fs.old ≡ Some v → Needs self.old v }
        ensures writes { (v : View) → F.view fs.old ≡ Some v → Told (F.view fs.new) (λ w. Writes (WritesOf self.old v) v w) }
        ensures after { (v : View) → F.view fs.old ≡ Some v → OnOk result (Told (F.view fs.new) (λ w. Needs self.new w)) }
        ensures pieces { (v : View) → F.view fs.old ≡ Some v → OnOk result (self.old.phase ≡ phase.Append → self.new.written ≡ piece_end self.old.size self.old.written) }
        ensures fails { (v : View) → F.view fs.old ≡ Some v → IfErr result OfNone }
        ensures named { IfErr result OfPlacing }
        ensures stepped { IsStepped self.old result self.new }
        ensures falls { OnOk result (left self.new < left self.old ⊎ (self.old.phase ≡ phase.Ended)) }
        ensures time { Elapses (F.clock fs.old) (F.clock fs.new) (F.was fs.old) (F.was fs.new) (F.view fs.new) }
        ensures ticks { OnOk result (Takes self.old.phase (F.clock fs.old) (F.clock fs.new)) }
        ensures cause { HasCause (F.faults fs.old) (F.faults fs.new) result }
        ensures room { F.spare fs.old ≤ F.spare fs.new + 1 }
        ensures unchanged { (v : View) → F.view fs.old ≡ Some v → IsErrOf result err.NoMemory → F.view fs.new ≡ Some v }
    {
        if fs.stat(&self.plan.stage)?.is_some() {
            fs.unlink(&self.plan.stage)?;
        }
        self.phase = Phase::Create;
        Ok(StepResult::More)
    }

    fn create<F: Fs>(&mut self, fs: &mut F) -> Result<StepResult<()>, FsErr>
        requires phase { self.old.phase ≡ phase.Create }
        requires needs { (v : View) → F.view fs.old ≡ Some v → Needs self.old v }
        ensures writes { (v : View) → F.view fs.old ≡ Some v → Told (F.view fs.new) (λ w. Writes (WritesOf self.old v) v w) }
        ensures after { (v : View) → F.view fs.old ≡ Some v → OnOk result (Told (F.view fs.new) (λ w. Needs self.new w)) }
        ensures pieces { (v : View) → F.view fs.old ≡ Some v → OnOk result (self.old.phase ≡ phase.Append → self.new.written ≡ piece_end self.old.size self.old.written) }
        ensures fails { (v : View) → F.view fs.old ≡ Some v → IfErr result OfNone }
        ensures named { IfErr result OfPlacing }
        ensures stepped { IsStepped self.old result self.new }
        ensures falls { OnOk result (left self.new < left self.old ⊎ (self.old.phase ≡ phase.Ended)) }
        ensures time { Elapses (F.clock fs.old) (F.clock fs.new) (F.was fs.old) (F.was fs.new) (F.view fs.new) }
        ensures ticks { OnOk result (Takes self.old.phase (F.clock fs.old) (F.clock fs.new)) }
        ensures cause { HasCause (F.faults fs.old) (F.faults fs.new) result }
        ensures room { F.spare fs.old ≤ F.spare fs.new + 1 }
        ensures unchanged { (v : View) → F.view fs.old ≡ Some v → IsErrOf result err.NoMemory → F.view fs.new ≡ Some v }
    {
        let size = file_size(fs, &self.plan.from)?;
        fs.create(&self.plan.stage, &self.plan.meta)?;
        self.filled(size, 0);
        Ok(StepResult::More)
    }

    fn append<F: Fs>(&mut self, fs: &mut F) -> Result<StepResult<()>, FsErr>
        requires phase { self.old.phase ≡ phase.Append }
        requires needs { (v : View) → F.view fs.old ≡ Some v → Needs self.old v }
        ensures writes { (v : View) → F.view fs.old ≡ Some v → Told (F.view fs.new) (λ w. Writes (WritesOf self.old v) v w) }
        ensures after { (v : View) → F.view fs.old ≡ Some v → OnOk result (Told (F.view fs.new) (λ w. Needs self.new w)) }
        ensures pieces { (v : View) → F.view fs.old ≡ Some v → OnOk result (self.old.phase ≡ phase.Append → self.new.written ≡ piece_end self.old.size self.old.written) }
        ensures fails { (v : View) → F.view fs.old ≡ Some v → IfErr result OfNone }
        ensures named { IfErr result OfPlacing }
        ensures stepped { IsStepped self.old result self.new }
        ensures falls { OnOk result (left self.new < left self.old ⊎ (self.old.phase ≡ phase.Ended)) }
        ensures time { Elapses (F.clock fs.old) (F.clock fs.new) (F.was fs.old) (F.was fs.new) (F.view fs.new) }
        ensures ticks { OnOk result (Takes self.old.phase (F.clock fs.old) (F.clock fs.new)) }
        ensures cause { HasCause (F.faults fs.old) (F.faults fs.new) result }
        ensures room { F.spare fs.old ≤ F.spare fs.new + 1 }
        ensures unchanged { (v : View) → F.view fs.old ≡ Some v → IsErrOf result err.NoMemory → F.view fs.new ≡ Some v }
    {
        let size = self.size;
        let written = self.written;
        let end = piece_end(size, written);
        let piece = read_piece(fs, &self.plan.from, written, end)?;
        let piece = piece.as_slice();
        fs.append(&self.plan.stage, piece)?;
        self.filled(size, written + piece.len() as u64);
        Ok(StepResult::More)
    }

    fn sync_file<F: Fs>(&mut self, fs: &mut F) -> Result<StepResult<()>, FsErr>
        requires phase { self.old.phase ≡ phase.SyncFile }
        requires needs { (v : View) → F.view fs.old ≡ Some v → Needs self.old v }
        ensures writes { (v : View) → F.view fs.old ≡ Some v → Told (F.view fs.new) (λ w. Writes (WritesOf self.old v) v w) }
        ensures after { (v : View) → F.view fs.old ≡ Some v → OnOk result (Told (F.view fs.new) (λ w. Needs self.new w)) }
        ensures pieces { (v : View) → F.view fs.old ≡ Some v → OnOk result (self.old.phase ≡ phase.Append → self.new.written ≡ piece_end self.old.size self.old.written) }
        ensures fails { (v : View) → F.view fs.old ≡ Some v → IfErr result OfNone }
        ensures named { IfErr result OfPlacing }
        ensures stepped { IsStepped self.old result self.new }
        ensures falls { OnOk result (left self.new < left self.old ⊎ (self.old.phase ≡ phase.Ended)) }
        ensures time { Elapses (F.clock fs.old) (F.clock fs.new) (F.was fs.old) (F.was fs.new) (F.view fs.new) }
        ensures ticks { OnOk result (Takes self.old.phase (F.clock fs.old) (F.clock fs.new)) }
        ensures cause { HasCause (F.faults fs.old) (F.faults fs.new) result }
        ensures room { F.spare fs.old ≤ F.spare fs.new + 1 }
        ensures unchanged { (v : View) → F.view fs.old ≡ Some v → IsErrOf result err.NoMemory → F.view fs.new ≡ Some v }
    {
        fs.sync_file(&self.plan.stage)?;
        self.phase = Phase::Ended;
        Ok(StepResult::Done(()))
    }
}
