//! The steps of a checkout.
ghost use Rattle.std.specs.Prelude.{◌≡◌, ◌≤◌, ◌<◌, ◌+◌, ℕ, Some, OnOk, OnErr, IfOk, IfErr, IsErrOf, length};
ghost use Rattle.ost_types.specs.PathMap.{IsNode};
ghost use Rattle.fs_trait.specs.View.{View, named};
ghost use Rattle.fs_trait.specs.Image.{Told};
ghost use Rattle.fs_trait.specs.Effect.{Changed, Elapses, HasCause, OfPlacing, Ticks};
ghost use Rattle.fs_trait.specs.Change.{Writes};
ghost use Rattle.fs_trait.specs.declared.types.FsErr.TheVariants as err;
ghost use Rattle.checkout.specs.declared.checkout_phase.CheckoutPhase.TheVariants as phase;
ghost use Rattle.checkout.specs.CheckoutWork.{Checkout, IsReached, IsStepped, OnMore, Takes, left, reached, reached_turn};
ghost use Rattle.checkout.specs.CheckoutSteps.{Makes, Needs, Ready, Refuses, Tells, WritesOf, no_make, value_of};

use super::CheckoutTask;
use crate::checkout_phase::{CheckoutPhase, DestExists};
use fs_trait::{Fs, FsErr, StepResult};
use ost_types::{FsPath, Kind, NodeName, ObjName};
use repo_layout::object_path;
use std::alloc::Global;

impl CheckoutTask {
    /// Does the next step: at most one changing call, and one reading call before it. After an error the task is unchanged; where
    /// memory was wanting the step may be tried again.
    pub fn step<F: Fs>(&mut self, fs: &mut F) -> Result<StepResult<Result<(), DestExists>>, FsErr>
        requires { (v : View) → F.view fs.old ≡ Some v → Needs self.old v.now }
        ensures writes { (v : View) → F.view fs.old ≡ Some v → Told (F.view fs.new) (λ w. Writes (WritesOf self.old v) v w) }
        ensures after { (v : View) → F.view fs.old ≡ Some v → OnOk result (Told (F.view fs.new) (λ w. Needs self.new w.now)) }
        ensures tells { (v : View) → F.view fs.old ≡ Some v → IfOk result (λ turn. Told (F.view fs.new) (λ w. Tells self.old v w turn)) }
        ensures fails { (v : View) → F.view fs.old ≡ Some v → IfErr result Refuses }
        ensures unchanged { (v : View) → F.view fs.old ≡ Some v → IsErrOf result err.NoMemory → F.view fs.new ≡ Some v }
        ensures named { IfErr result OfPlacing }
        ensures stepped { IsStepped self.old result self.new }
        ensures falls { OnMore result (left self.new < left self.old) }
        ensures time { Elapses (F.clock fs.old) (F.clock fs.new) (F.was fs.old) (F.was fs.new) (F.view fs.new) }
        ensures ticks { IfOk result (λ turn. Takes self.old.phase turn (F.clock fs.old) (F.clock fs.new)) }
        ensures cause { HasCause (F.faults fs.old) (F.faults fs.new) result }
        ensures room { F.spare fs.old ≤ F.spare fs.new + 1 }
    {
        match self.phase {
            CheckoutPhase::Begin => self.begin(fs),
            CheckoutPhase::Make(number) => self.make(fs, number),
            CheckoutPhase::Ended => Ok(StepResult::Done(Ok(()))),
            CheckoutPhase::Refused => Ok(StepResult::Done(Err(DestExists))),
        }
    }

    fn begin<F: Fs>(&mut self, fs: &mut F) -> Result<StepResult<Result<(), DestExists>>, FsErr>
        requires phase { self.old.phase ≡ phase.Begin }
        requires needs { (v : View) → F.view fs.old ≡ Some v → Needs self.old v.now }
        ensures writes { (v : View) → F.view fs.old ≡ Some v → Told (F.view fs.new) (λ w. Writes (WritesOf self.old v) v w) }
        ensures after { (v : View) → F.view fs.old ≡ Some v → OnOk result (Told (F.view fs.new) (λ w. Needs self.new w.now)) }
        ensures tells { (v : View) → F.view fs.old ≡ Some v → IfOk result (λ turn. Told (F.view fs.new) (λ w. Tells self.old v w turn)) }
        ensures fails { (v : View) → F.view fs.old ≡ Some v → IfErr result Refuses }
        ensures unchanged { (v : View) → F.view fs.old ≡ Some v → IsErrOf result err.NoMemory → F.view fs.new ≡ Some v }
        ensures named { IfErr result OfPlacing }
        ensures stepped { IsStepped self.old result self.new }
        ensures falls { OnMore result (left self.new < left self.old) }
        ensures time { Elapses (F.clock fs.old) (F.clock fs.new) (F.was fs.old) (F.was fs.new) (F.view fs.new) }
        ensures ticks { IfOk result (λ turn. Takes self.old.phase turn (F.clock fs.old) (F.clock fs.new)) }
        ensures cause { HasCause (F.faults fs.old) (F.faults fs.new) result }
        ensures room { F.spare fs.old ≤ F.spare fs.new + 1 }
    {
        if fs.stat(&self.into)?.is_some() {
            self.phase = CheckoutPhase::Refused;
            return Ok(StepResult::Done(Err(DestExists)));
        }
        self.make(fs, 0)
    }

    // the node of the map with this number
    fn make<F: Fs>(
        &mut self,
        fs: &mut F,
        number: usize,
    ) -> Result<StepResult<Result<(), DestExists>>, FsErr>
        requires inside { number < length self.old.tree }
        requires ready { (v : View) → F.view fs.old ≡ Some v → Ready number self.old v.now }
        ensures writes { (v : View) → F.view fs.old ≡ Some v → Told (F.view fs.new) (λ w. Writes (Makes number self.old v) v w) }
        ensures after { (v : View) → F.view fs.old ≡ Some v → OnOk result (Told (F.view fs.new) (λ w. Needs self.new w.now)) }
        ensures fails { (v : View) → F.view fs.old ≡ Some v → IfErr result Refuses }
        ensures unchanged { (v : View) → F.view fs.old ≡ Some v → IsErrOf result err.NoMemory → F.view fs.new ≡ Some v }
        ensures named { IfErr result OfPlacing }
        ensures reached { IfOk result (λ turn. IsReached number self.old turn self.new) }
        ensures err { OnErr result (self.new ≡ self.old) }
        ensures time { Elapses (F.clock fs.old) (F.clock fs.new) (F.was fs.old) (F.was fs.new) (F.view fs.new) }
        ensures ticks { Ticks (F.clock fs.old) (F.clock fs.new) result }
        ensures cause { HasCause (F.faults fs.old) (F.faults fs.new) result }
        ensures room { F.spare fs.old ≤ F.spare fs.new + 1 }
    {
        let (path, node) = &self.tree.as_slice()[number];
        let at = self.into.join(path)?;
        make_node(self.alloc, fs, &at, node)?;
        Ok(self.reached(number))
    }

    // that pair of the map is made
    fn reached(&mut self, number: usize) -> StepResult<Result<(), DestExists>>
        requires { number < length self.old.tree }
        ensures next { self.new ≡ reached number self.old }
        ensures turn { result ≡ reached_turn number self.old }
    {
        let count = self.tree.len();
        if number + 1 < count {
            self.phase = CheckoutPhase::Make(number + 1);
            return StepResult::More;
        }
        self.phase = CheckoutPhase::Ended;
        StepResult::Done(Ok(()))
    }
}

// a folder, or one more name of the leaf's object
fn make_node<F: Fs>(alloc: Global, fs: &mut F, at: &FsPath, node: &NodeName) -> Result<(), FsErr>
    requires { IsNode node.now }
    ensures effect { (v : View) → F.view fs.old ≡ Some v → Changed (no_make node.now at.now v.now) v (named at.now (value_of node.now v.now) v) result (F.view fs.new) }
    ensures named { IfErr result OfPlacing }
    ensures time { Elapses (F.clock fs.old) (F.clock fs.new) (F.was fs.old) (F.was fs.new) (F.view fs.new) }
    ensures ticks { Ticks (F.clock fs.old) (F.clock fs.new) result }
    ensures cause { HasCause (F.faults fs.old) (F.faults fs.new) result }
    ensures room { F.spare fs.old ≤ F.spare fs.new + 1 }
{
    match node {
        NodeName::Folder(meta) => fs.mkdir(at, meta),
        NodeName::Leaf(csum) => {
            let name = ObjName {
                csum: *csum,
                kind: Kind::File,
            };
            fs.link(&object_path(alloc, &name)?, at)
        }
    }
}
