//! The steps of making a folder, one function for each kind.
ghost use Rattle.std.specs.Prelude.{◌≡◌, ◌⊎◌, ◌≤◌, ◌<◌, ◌+◌, ℕ, List, [], Option, Some, OnOk, OnErr, IfErr, IsErrOf, IfSome, IsSome, length, slice_index_or};
ghost use Rattle.fs_trait.specs.View.{View};
ghost use Rattle.fs_trait.specs.Image.{Told};
ghost use Rattle.fs_trait.specs.declared.types.FsErr.TheVariants as err;
ghost use Rattle.fs_trait.specs.Effect.{Elapses, HasCause};
ghost use Rattle.fs_trait.specs.Change.{Writes};
ghost use Rattle.folder_build.specs.declared.phase.Phase.TheVariants as phase;
ghost use Rattle.folder_build.specs.declared.node.NewNode.{NewNode as New};
ghost use Rattle.folder_build.specs.declared.node.Content.TheVariants as content;
ghost use Rattle.folder_build.specs.Build.{Building, IsClear, IsNumber, IsStepped, OnMore, Takes, left, reached, reached_turn};
ghost use Rattle.folder_build.specs.Steps.{Needs, Refuses, WritesOf};

use super::BuildTask;
use crate::metas::{file_meta, folder_meta, link_meta};
use crate::node::{Content, NewNode};
use crate::phase::Phase;
use fs_trait::{Fs, FsErr, StepResult};

impl BuildTask {
    /// Does the next step: at most one changing call, and two reading ones before it. It is done with the last node. After an
    /// error the task is unchanged, so that the step may be tried again.
    pub fn step<F: Fs>(&mut self, fs: &mut F) -> Result<StepResult<()>, FsErr>
        requires { (v : View) → F.view fs.old ≡ Some v → Needs self.old v }
        ensures writes { (v : View) → F.view fs.old ≡ Some v → Told (F.view fs.new) (λ w. Writes (WritesOf self.old v) v w) }
        ensures after { (v : View) → F.view fs.old ≡ Some v → OnOk result (Told (F.view fs.new) (λ w. Needs self.new w)) }
        ensures fails { (v : View) → F.view fs.old ≡ Some v → IfErr result (Refuses self.old v) }
        ensures unchanged { (v : View) → F.view fs.old ≡ Some v → IsErrOf result err.NoMemory → F.view fs.new ≡ Some v }
        ensures stepped { IsStepped self.old result self.new }
        ensures falls { OnMore result (left self.new < left self.old) }
        ensures time { Elapses (F.clock fs.old) (F.clock fs.new) (F.was fs.old) (F.was fs.new) (F.view fs.new) }
        ensures ticks { OnOk result (Takes self.old.phase (F.clock fs.old) (F.clock fs.new)) }
        ensures cause { HasCause (F.faults fs.old) (F.faults fs.new) result }
        ensures room { F.spare fs.old ≤ F.spare fs.new + 1 }
    {
        match &self.phase {
            Phase::Clear(_) => self.clear(fs),
            Phase::Make(number) => {
                let number = *number;
                self.make(fs, number)
            }
            Phase::Write(number) => {
                let number = *number;
                self.write(fs, number)
            }
            Phase::Ended => Ok(StepResult::Done(())),
        }
    }

    // removes what stands at the path
    fn clear<F: Fs>(&mut self, fs: &mut F) -> Result<StepResult<()>, FsErr>
        requires phase { IsClear self.old.phase }
        requires needs { (v : View) → F.view fs.old ≡ Some v → Needs self.old v }
        ensures writes { (v : View) → F.view fs.old ≡ Some v → Told (F.view fs.new) (λ w. Writes (WritesOf self.old v) v w) }
        ensures after { (v : View) → F.view fs.old ≡ Some v → OnOk result (Told (F.view fs.new) (λ w. Needs self.new w)) }
        ensures fails { (v : View) → F.view fs.old ≡ Some v → IfErr result (Refuses self.old v) }
        ensures unchanged { (v : View) → F.view fs.old ≡ Some v → IsErrOf result err.NoMemory → F.view fs.new ≡ Some v }
        ensures stepped { IsStepped self.old result self.new }
        ensures falls { OnMore result (left self.new < left self.old) }
        ensures time { Elapses (F.clock fs.old) (F.clock fs.new) (F.was fs.old) (F.was fs.new) (F.view fs.new) }
        ensures ticks { OnOk result (Takes self.old.phase (F.clock fs.old) (F.clock fs.new)) }
        ensures cause { HasCause (F.faults fs.old) (F.faults fs.new) result }
        ensures room { F.spare fs.old ≤ F.spare fs.new + 1 }
    {
        let Phase::Clear(removing) = &mut self.phase else {
            unreachable!()
        };
        match removing.step(fs)? {
            StepResult::More => Ok(StepResult::More),
            StepResult::Done(()) => {
                self.phase = Phase::Make(0);
                Ok(StepResult::More)
            }
        }
    }

    // makes the node of this number
    fn make<F: Fs>(&mut self, fs: &mut F, number: usize) -> Result<StepResult<()>, FsErr>
        requires phase { self.old.phase ≡ phase.Make number }
        requires needs { (v : View) → F.view fs.old ≡ Some v → Needs self.old v }
        ensures writes { (v : View) → F.view fs.old ≡ Some v → Told (F.view fs.new) (λ w. Writes (WritesOf self.old v) v w) }
        ensures after { (v : View) → F.view fs.old ≡ Some v → OnOk result (Told (F.view fs.new) (λ w. Needs self.new w)) }
        ensures fails { (v : View) → F.view fs.old ≡ Some v → IfErr result (Refuses self.old v) }
        ensures unchanged { (v : View) → F.view fs.old ≡ Some v → IsErrOf result err.NoMemory → F.view fs.new ≡ Some v }
        ensures stepped { IsStepped self.old result self.new }
        ensures falls { OnMore result (left self.new < left self.old) }
        ensures time { Elapses (F.clock fs.old) (F.clock fs.new) (F.was fs.old) (F.was fs.new) (F.view fs.new) }
        ensures ticks { OnOk result (Takes self.old.phase (F.clock fs.old) (F.clock fs.new)) }
        ensures cause { HasCause (F.faults fs.old) (F.faults fs.new) result }
        ensures room { F.spare fs.old ≤ F.spare fs.new + 1 }
    {
        match &self.nodes[number].what {
            Content::Folder => self.make_folder(fs, number),
            Content::File(_) => self.make_file(fs, number),
            Content::Link(_) => self.make_link(fs, number),
        }
    }

    // makes a folder, unless it is there
    fn make_folder<F: Fs>(&mut self, fs: &mut F, number: usize) -> Result<StepResult<()>, FsErr>
        requires phase { self.old.phase ≡ phase.Make number }
        requires what { (e : New) → IsNumber self.old.nodes number e → e.what ≡ content.Folder }
        requires needs { (v : View) → F.view fs.old ≡ Some v → Needs self.old v }
        ensures writes { (v : View) → F.view fs.old ≡ Some v → Told (F.view fs.new) (λ w. Writes (WritesOf self.old v) v w) }
        ensures after { (v : View) → F.view fs.old ≡ Some v → OnOk result (Told (F.view fs.new) (λ w. Needs self.new w)) }
        ensures fails { (v : View) → F.view fs.old ≡ Some v → IfErr result (Refuses self.old v) }
        ensures unchanged { (v : View) → F.view fs.old ≡ Some v → IsErrOf result err.NoMemory → F.view fs.new ≡ Some v }
        ensures stepped { IsStepped self.old result self.new }
        ensures falls { OnMore result (left self.new < left self.old) }
        ensures time { Elapses (F.clock fs.old) (F.clock fs.new) (F.was fs.old) (F.was fs.new) (F.view fs.new) }
        ensures ticks { OnOk result (Takes self.old.phase (F.clock fs.old) (F.clock fs.new)) }
        ensures cause { HasCause (F.faults fs.old) (F.faults fs.new) result }
        ensures room { F.spare fs.old ≤ F.spare fs.new + 1 }
    {
        let node = &self.nodes[number];
        if fs.stat(&node.at)?.is_some() {
            return Ok(self.reached(number));
        }
        fs.mkdir(&node.at, &folder_meta(self.alloc))?;
        Ok(self.reached(number))
    }

    // makes a symbolic link
    fn make_link<F: Fs>(&mut self, fs: &mut F, number: usize) -> Result<StepResult<()>, FsErr>
        requires phase { self.old.phase ≡ phase.Make number }
        requires what { (e : New) → IsNumber self.old.nodes number e → (t : List ℕ) × (e.what ≡ content.Link t) }
        requires needs { (v : View) → F.view fs.old ≡ Some v → Needs self.old v }
        ensures writes { (v : View) → F.view fs.old ≡ Some v → Told (F.view fs.new) (λ w. Writes (WritesOf self.old v) v w) }
        ensures after { (v : View) → F.view fs.old ≡ Some v → OnOk result (Told (F.view fs.new) (λ w. Needs self.new w)) }
        ensures fails { (v : View) → F.view fs.old ≡ Some v → IfErr result (Refuses self.old v) }
        ensures unchanged { (v : View) → F.view fs.old ≡ Some v → IsErrOf result err.NoMemory → F.view fs.new ≡ Some v }
        ensures stepped { IsStepped self.old result self.new }
        ensures falls { OnMore result (left self.new < left self.old) }
        ensures time { Elapses (F.clock fs.old) (F.clock fs.new) (F.was fs.old) (F.was fs.new) (F.view fs.new) }
        ensures ticks { OnOk result (Takes self.old.phase (F.clock fs.old) (F.clock fs.new)) }
        ensures cause { HasCause (F.faults fs.old) (F.faults fs.new) result }
        ensures room { F.spare fs.old ≤ F.spare fs.new + 1 }
    {
        let node = &self.nodes[number];
        let Content::Link(target) = &node.what else {
            unreachable!()
        };
        fs.symlink(&node.at, target, &link_meta(self.alloc))?;
        Ok(self.reached(number))
    }

    // makes a file, without its bytes
    fn make_file<F: Fs>(&mut self, fs: &mut F, number: usize) -> Result<StepResult<()>, FsErr>
        requires phase { self.old.phase ≡ phase.Make number }
        requires what { (e : New) → IsNumber self.old.nodes number e → (b : List ℕ) × (e.what ≡ content.File b) }
        requires needs { (v : View) → F.view fs.old ≡ Some v → Needs self.old v }
        ensures writes { (v : View) → F.view fs.old ≡ Some v → Told (F.view fs.new) (λ w. Writes (WritesOf self.old v) v w) }
        ensures after { (v : View) → F.view fs.old ≡ Some v → OnOk result (Told (F.view fs.new) (λ w. Needs self.new w)) }
        ensures fails { (v : View) → F.view fs.old ≡ Some v → IfErr result (Refuses self.old v) }
        ensures unchanged { (v : View) → F.view fs.old ≡ Some v → IsErrOf result err.NoMemory → F.view fs.new ≡ Some v }
        ensures stepped { IsStepped self.old result self.new }
        ensures falls { OnMore result (left self.new < left self.old) }
        ensures time { Elapses (F.clock fs.old) (F.clock fs.new) (F.was fs.old) (F.was fs.new) (F.view fs.new) }
        ensures ticks { OnOk result (Takes self.old.phase (F.clock fs.old) (F.clock fs.new)) }
        ensures cause { HasCause (F.faults fs.old) (F.faults fs.new) result }
        ensures room { F.spare fs.old ≤ F.spare fs.new + 1 }
    {
        fs.create(&self.nodes[number].at, &file_meta(self.alloc))?;
        self.phase = Phase::Write(number);
        Ok(StepResult::More)
    }

    // writes the bytes of the file of this number
    fn write<F: Fs>(&mut self, fs: &mut F, number: usize) -> Result<StepResult<()>, FsErr>
        requires phase { self.old.phase ≡ phase.Write number }
        requires needs { (v : View) → F.view fs.old ≡ Some v → Needs self.old v }
        ensures writes { (v : View) → F.view fs.old ≡ Some v → Told (F.view fs.new) (λ w. Writes (WritesOf self.old v) v w) }
        ensures after { (v : View) → F.view fs.old ≡ Some v → OnOk result (Told (F.view fs.new) (λ w. Needs self.new w)) }
        ensures fails { (v : View) → F.view fs.old ≡ Some v → IfErr result (Refuses self.old v) }
        ensures unchanged { (v : View) → F.view fs.old ≡ Some v → IsErrOf result err.NoMemory → F.view fs.new ≡ Some v }
        ensures stepped { IsStepped self.old result self.new }
        ensures falls { OnMore result (left self.new < left self.old) }
        ensures time { Elapses (F.clock fs.old) (F.clock fs.new) (F.was fs.old) (F.was fs.new) (F.view fs.new) }
        ensures ticks { OnOk result (Takes self.old.phase (F.clock fs.old) (F.clock fs.new)) }
        ensures cause { HasCause (F.faults fs.old) (F.faults fs.new) result }
        ensures room { F.spare fs.old ≤ F.spare fs.new + 1 }
    {
        let node = &self.nodes[number];
        let Content::File(bytes) = &node.what else {
            unreachable!()
        };
        fs.append(&node.at, bytes.as_slice())?;
        Ok(self.reached(number))
    }

    // the node of this number is whole
    fn reached(&mut self, number: usize) -> StepResult<()>
        requires { number < length self.old.nodes }
        ensures next { self.new ≡ reached number self.old }
        ensures turn { result ≡ reached_turn number self.old }
    {
        let count = self.nodes.len();
        if number + 1 < count {
            self.phase = Phase::Make(number + 1);
            return StepResult::More;
        }
        self.phase = Phase::Ended;
        StepResult::Done(())
    }
}
