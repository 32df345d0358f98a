//! The folder is made, a node a step; and one step more says that all of it stands.
ghost use Rattle.std.specs.Prelude.{◌≡◌, ◌≤◌, ◌+◌, Some, IfOk, IfErr, IsErrOf};
ghost use Rattle.ost_types.specs.PathMap.{IsPathMap};
ghost use Rattle.fs_trait.specs.declared.types.FsErr.TheVariants as err;
ghost use Rattle.fs_trait.specs.View.{View};
ghost use Rattle.fs_trait.specs.Image.{Told};
ghost use Rattle.fs_trait.specs.Change.{Writes};
ghost use Rattle.fs_trait.specs.Effect.{Elapses, HasCause, OfNone};
ghost use Rattle.checkout.specs.CheckoutWork.{IsPlaced, beginning};
ghost use Rattle.rely_guarantee.specs.Laws.{step_of};
ghost use Rattle.checkout_command.specs.declared.made.Made.TheVariants as made;
ghost use Rattle.checkout_command.specs.MakeSteps.{IsGoing, IsMakeStepped, MakeNeeds, MakeTells, make_kind, make_left, make_writes};

use crate::{CheckoutAnswer, Made, Request};
use checkout::{CheckoutTask, DestExists};
use fs_trait::{Fs, FsErr, StepResult};
use ost_types::{FsPath, Name, NoMemory, PathMap, TryCopy};
use rely_guarantee::StepKind;

#[derive(Drop, Debug)]
pub struct Make {
    request: Request,
    task: CheckoutTask,
    made: Made,
}

impl Make {
    pub(crate) fn new(request: Request, into: FsPath, tree: PathMap) -> Make
        requires { IsPlaced into tree }
        ensures value { result ≡ record { request = request; task = beginning into tree; made = made.Nothing } }
        ensures map { IsPathMap tree }
    {
        let _pairs = tree.as_slice();
        let task = CheckoutTask::new(request.alloc, into, tree);
        Make {
            request,
            task,
            made: Made::Nothing,
        }
    }

    /// Who makes the folder claims it.
    pub(crate) fn kind(&self) -> StepKind
        ensures { result ≡ step_of (make_kind self.now.made self.now.request.name) }
    {
        match self.made {
            Made::Nothing => StepKind::Claim,
            Made::Part | Made::All => StepKind::Quiet,
        }
    }

    pub(crate) fn name(&self) -> Result<Name, NoMemory>
        ensures { IfOk result (λ n. n ≡ self.now.request.name) }
    {
        self.request.name.copy()
    }

    /// At most so many steps go on.
    pub(crate) fn left(&self) -> u128
        ensures { result ≡ make_left self.now.made self.now.task }
    {
        match self.made {
            Made::Nothing | Made::Part => self.task.left() + 1,
            Made::All => 0,
        }
    }

    /// Makes the next node. None where it goes on.
    pub(crate) fn step<F: Fs>(&mut self, fs: &mut F) -> Result<Option<CheckoutAnswer>, FsErr>
        requires { (v : View) → F.view fs.old ≡ Some v → MakeNeeds self.old v.now }
        ensures writes { (v : View) → F.view fs.old ≡ Some v → Told (F.view fs.new) (λ w. Writes (make_writes self.old v) v w) }
        ensures unchanged { (v : View) → F.view fs.old ≡ Some v → IsErrOf result err.NoMemory → F.view fs.new ≡ Some v }
        ensures told { (v : View) → F.view fs.old ≡ Some v → IfOk result (λ answer. Told (F.view fs.new) (λ w. MakeTells self.old self.new v w answer)) }
        ensures stepped { IfOk result (IsMakeStepped self.old self.new) }
        ensures named { (v : View) → F.view fs.old ≡ Some v → IfErr result OfNone }
        ensures time { Elapses (F.clock fs.old) (F.clock fs.new) (F.was fs.old) (F.was fs.new) (F.view fs.new) }
        ensures cause { HasCause (F.faults fs.old) (F.faults fs.new) result }
        ensures room { F.spare fs.old ≤ F.spare fs.new + 1 }
    {
        match self.made {
            Made::Nothing | Made::Part => self.make(fs),
            Made::All => Ok(Some(CheckoutAnswer::Done)),
        }
    }

    fn make<F: Fs>(&mut self, fs: &mut F) -> Result<Option<CheckoutAnswer>, FsErr>
        requires going { IsGoing self.old.made }
        requires needs { (v : View) → F.view fs.old ≡ Some v → MakeNeeds self.old v.now }
        ensures writes { (v : View) → F.view fs.old ≡ Some v → Told (F.view fs.new) (λ w. Writes (make_writes self.old v) v w) }
        ensures unchanged { (v : View) → F.view fs.old ≡ Some v → IsErrOf result err.NoMemory → F.view fs.new ≡ Some v }
        ensures told { (v : View) → F.view fs.old ≡ Some v → IfOk result (λ answer. Told (F.view fs.new) (λ w. MakeTells self.old self.new v w answer)) }
        ensures stepped { IfOk result (IsMakeStepped self.old self.new) }
        ensures named { (v : View) → F.view fs.old ≡ Some v → IfErr result OfNone }
        ensures time { Elapses (F.clock fs.old) (F.clock fs.new) (F.was fs.old) (F.was fs.new) (F.view fs.new) }
        ensures cause { HasCause (F.faults fs.old) (F.faults fs.new) result }
        ensures room { F.spare fs.old ≤ F.spare fs.new + 1 }
    {
        match self.task.step(fs)? {
            StepResult::More => {
                self.made = Made::Part;
                Ok(None)
            }
            StepResult::Done(Ok(())) => {
                self.made = Made::All;
                Ok(None)
            }
            StepResult::Done(Err(DestExists)) => {
                Ok(Some(CheckoutAnswer::DestExists(self.request.path()?)))
            }
        }
    }
}
