//! The steps of a copy of a tree, one function a phase.
ghost use Rattle.std.specs.Prelude.{◌≡◌, ◌≤◌, ◌<◌, ◌+◌, Some, OnOk, IfErr, length};
ghost use Rattle.fs_trait.specs.View.{View};
ghost use Rattle.fs_trait.specs.Effect.{Elapses, HasCause, OfPlacing};
ghost use Rattle.checkout.specs.CheckoutWork.{OnMore};
ghost use Rattle.tree_copy.specs.declared.phase.TreePhase.TheVariants as phase;
ghost use Rattle.tree_copy.specs.TreeWork.{IsCopying, IsStepped, Takes, is_whole, left, reached, reached_turn};
ghost use Rattle.tree_copy.specs.TreeSteps.{IsToldStep, Needs};

use super::TreeCopy;
use crate::node::begin_node;
use crate::phase::TreePhase;
use checkout::DestExists;
use file_copy::Phase;
use fs_trait::{Fs, FsErr, StepResult};
use ost_types::NodeName;

impl TreeCopy {
    /// Does the next step: at most one changing call, and one reading call before it. After an error the task is unchanged; where
    /// memory was wanting the step may be tried again. `Missing` comes, too, where no leaf that can be
    /// made anew stands at an object's path, or a file ends early.
    pub fn step<F: Fs>(&mut self, fs: &mut F) -> Result<StepResult<Result<(), DestExists>>, FsErr>
        requires { (v : View) → F.view fs.old ≡ Some v → Needs self.old v }
        ensures told { (v : View) → F.view fs.old ≡ Some v → IsToldStep self.old self.new v result (F.view fs.new) }
        ensures named { IfErr result OfPlacing }
        ensures stepped { IsStepped self.old result self.new }
        ensures falls { OnMore result (left self.new < left self.old) }
        ensures time { Elapses (F.clock fs.old) (F.clock fs.new) (F.was fs.old) (F.was fs.new) (F.view fs.new) }
        ensures ticks { OnOk result (Takes self.old self.new (F.clock fs.old) (F.clock fs.new)) }
        ensures cause { HasCause (F.faults fs.old) (F.faults fs.new) result }
        ensures room { F.spare fs.old ≤ F.spare fs.new + 1 }
    {
        match &self.phase {
            TreePhase::Begin => self.begin(fs),
            TreePhase::Make(number) => {
                let number = *number;
                self.make(fs, number)
            }
            TreePhase::Copy(number, _) => {
                let number = *number;
                self.copy(fs, number)
            }
            TreePhase::Ended => Ok(StepResult::Done(Ok(()))),
            TreePhase::Refused => Ok(StepResult::Done(Err(DestExists))),
        }
    }

    // looks at the path, and makes the folder there
    fn begin<F: Fs>(&mut self, fs: &mut F) -> Result<StepResult<Result<(), DestExists>>, FsErr>
        requires phase { self.old.phase ≡ phase.Begin }
        requires needs { (v : View) → F.view fs.old ≡ Some v → Needs self.old v }
        ensures told { (v : View) → F.view fs.old ≡ Some v → IsToldStep self.old self.new v result (F.view fs.new) }
        ensures named { IfErr result OfPlacing }
        ensures stepped { IsStepped self.old result self.new }
        ensures falls { OnMore result (left self.new < left self.old) }
        ensures time { Elapses (F.clock fs.old) (F.clock fs.new) (F.was fs.old) (F.was fs.new) (F.view fs.new) }
        ensures ticks { OnOk result (Takes self.old self.new (F.clock fs.old) (F.clock fs.new)) }
        ensures cause { HasCause (F.faults fs.old) (F.faults fs.new) result }
        ensures room { F.spare fs.old ≤ F.spare fs.new + 1 }
    {
        if fs.stat(&self.into)?.is_some() {
            self.phase = TreePhase::Refused;
            return Ok(StepResult::Done(Err(DestExists)));
        }
        match &self.tree.as_slice()[0].1 {
            NodeName::Folder(meta) => fs.mkdir(&self.into, meta)?,
            NodeName::Leaf(_) => unreachable!(),
        }
        Ok(self.reached(0))
    }

    // makes the node of this number, or begins to copy its file
    fn make<F: Fs>(
        &mut self,
        fs: &mut F,
        number: usize,
    ) -> Result<StepResult<Result<(), DestExists>>, FsErr>
        requires phase { self.old.phase ≡ phase.Make number }
        requires needs { (v : View) → F.view fs.old ≡ Some v → Needs self.old v }
        ensures told { (v : View) → F.view fs.old ≡ Some v → IsToldStep self.old self.new v result (F.view fs.new) }
        ensures named { IfErr result OfPlacing }
        ensures stepped { IsStepped self.old result self.new }
        ensures falls { OnMore result (left self.new < left self.old) }
        ensures time { Elapses (F.clock fs.old) (F.clock fs.new) (F.was fs.old) (F.was fs.new) (F.view fs.new) }
        ensures ticks { OnOk result (Takes self.old self.new (F.clock fs.old) (F.clock fs.new)) }
        ensures cause { HasCause (F.faults fs.old) (F.faults fs.new) result }
        ensures room { F.spare fs.old ≤ F.spare fs.new + 1 }
    {
        let (path, node) = &self.tree.as_slice()[number];
        let at = self.into.join(path)?;
        match begin_node(self.alloc, fs, at, node)? {
            None => Ok(self.reached(number)),
            Some(copying) => {
                self.phase = TreePhase::Copy(number, copying);
                Ok(StepResult::More)
            }
        }
    }

    // copies the file of this number
    fn copy<F: Fs>(
        &mut self,
        fs: &mut F,
        number: usize,
    ) -> Result<StepResult<Result<(), DestExists>>, FsErr>
        requires phase { IsCopying number self.old.phase }
        requires needs { (v : View) → F.view fs.old ≡ Some v → Needs self.old v }
        ensures told { (v : View) → F.view fs.old ≡ Some v → IsToldStep self.old self.new v result (F.view fs.new) }
        ensures named { IfErr result OfPlacing }
        ensures stepped { IsStepped self.old result self.new }
        ensures falls { OnMore result (left self.new < left self.old) }
        ensures time { Elapses (F.clock fs.old) (F.clock fs.new) (F.was fs.old) (F.was fs.new) (F.view fs.new) }
        ensures ticks { OnOk result (Takes self.old self.new (F.clock fs.old) (F.clock fs.new)) }
        ensures cause { HasCause (F.faults fs.old) (F.faults fs.new) result }
        ensures room { F.spare fs.old ≤ F.spare fs.new + 1 }
    {
        let TreePhase::Copy(_, copying) = &mut self.phase else {
            unreachable!()
        };
        copying.step(fs)?;
        // all bytes are there, and the sync is for whoever shows the tree
        if copying.phase() == Phase::SyncFile {
            self.phase = TreePhase::Make(number);
            return Ok(self.reached(number));
        }
        Ok(StepResult::More)
    }

    // the node of this number is made
    fn reached(&mut self, number: usize) -> StepResult<Result<(), DestExists>>
        requires { number < length self.old.tree }
        ensures next { self.new ≡ reached number self.old }
        ensures turn { result ≡ reached_turn number self.old }
    {
        let count = self.tree.len();
        if number + 1 < count {
            self.phase = TreePhase::Make(number + 1);
            return StepResult::More;
        }
        self.phase = TreePhase::Ended;
        StepResult::Done(Ok(()))
    }
}
