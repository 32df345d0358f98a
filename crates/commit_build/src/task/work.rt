//! The steps of committing a tree that make no call, one function a phase.
ghost use Rattle.std.specs.Prelude.{◌≡◌, ◌<◌, ℕ, None, IfErr, OnOk};
ghost use Rattle.fs_trait.specs.View.{View};
ghost use Rattle.commit_build.specs.declared.phase.Phase.TheVariants as phase;
ghost use Rattle.commit_build.specs.Committing.{Committing, IsAgain, IsBegin, IsEnded, IsStepped, IsWork, OnMore, left};
ghost use Rattle.tree_build.specs.Items.{IsTree};
ghost use Rattle.commit_build.specs.Nexts.{Nexts};
ghost use Rattle.fs_trait.specs.declared.types.FsErr.TheVariants as err;
ghost use Rattle.commit_build.specs.Steps.{Needs, OfPhase};

use super::CommitTask;
use crate::phase::Phase;
use crate::refusal::BuildRefusal;
use fs_trait::{FsErr, StepResult};
use obj_store::PutTask;
use ost_types::{Csum, NoMemory, TryCopy};
use std::mem;
use tree_build::{TreeBuild, commit_object};

impl CommitTask {
    pub(super) fn work(&mut self) -> Result<StepResult<Result<Csum, BuildRefusal>>, FsErr>
        requires { IsWork self.old.phase }
        ensures after { (v : View) → Needs self.old v → OnOk result (Needs self.new v) }
        ensures stepped { (count : ℕ) → IsStepped count self.old result self.new }
        ensures falls { OnMore result (left self.new < left self.old) }
        ensures named { IfErr result (OfPhase self.old.phase) }
    {
        match self.phase {
            Phase::Check => self.check(),
            Phase::Make => self.make(),
            Phase::Made(_) => self.begin(),
            Phase::MakeCommit => self.make_commit(),
            _ => Ok(self.again()),
        }
    }

    fn check(&mut self) -> Result<StepResult<Result<Csum, BuildRefusal>>, FsErr>
        requires { self.old.phase ≡ phase.Check }
        ensures after { (v : View) → Needs self.old v → OnOk result (Needs self.new v) }
        ensures stepped { (count : ℕ) → IsStepped count self.old result self.new }
        ensures falls { OnMore result (left self.new < left self.old) }
        ensures named { IfErr result (λ e. e ≡ err.NoMemory) }
    {
        if let Some(path) = self.build.bad_path() {
            let path = path.copy()?;
            self.met = None;
            return Ok(StepResult::Done(Err(BuildRefusal::BadTree(path))));
        }
        self.phase = Phase::Make;
        self.met = None;
        Ok(StepResult::More)
    }

    fn make(&mut self) -> Result<StepResult<Result<Csum, BuildRefusal>>, FsErr>
        requires { self.old.phase ≡ phase.Make }
        ensures after { (v : View) → Needs self.old v → OnOk result (Needs self.new v) }
        ensures stepped { (count : ℕ) → IsStepped count self.old result self.new }
        ensures falls { OnMore result (left self.new < left self.old) }
        ensures named { IfErr result (λ e. e ≡ err.NoMemory) }
    {
        self.phase = next_phase(&mut self.build)?;
        self.met = None;
        Ok(StepResult::More)
    }

    fn begin(&mut self) -> Result<StepResult<Result<Csum, BuildRefusal>>, FsErr>
        requires { IsBegin self.old.phase }
        ensures after { (v : View) → Needs self.old v → OnOk result (Needs self.new v) }
        ensures stepped { (count : ℕ) → IsStepped count self.old result self.new }
        ensures falls { OnMore result (left self.new < left self.old) }
        ensures named { IfErr result (λ e. e ≡ err.NoMemory) }
    {
        let Phase::Made(object) = mem::replace(&mut self.phase, Phase::Make) else {
            unreachable!()
        };
        match PutTask::new_or_back(self.alloc, self.actor, object, &self.limits) {
            Ok(put) => {
                let _left = put.left();
                self.phase = Phase::Put(put);
                self.met = None;
                Ok(StepResult::More)
            }
            Err(back) => {
                self.phase = Phase::Made(back);
                Err(FsErr::NoMemory)
            }
        }
    }

    fn make_commit(&mut self) -> Result<StepResult<Result<Csum, BuildRefusal>>, FsErr>
        requires { self.old.phase ≡ phase.MakeCommit }
        ensures after { (v : View) → Needs self.old v → OnOk result (Needs self.new v) }
        ensures stepped { (count : ℕ) → IsStepped count self.old result self.new }
        ensures falls { OnMore result (left self.new < left self.old) }
        ensures named { IfErr result (λ e. e ≡ err.NoMemory) }
    {
        let Some((tree, meta)) = self.build.root() else {
            unreachable!()
        };
        let message = &self.message;
        let commit = commit_object(
            self.alloc,
            tree,
            meta,
            message.parent,
            &message.subject,
            &message.body,
            message.time,
            &self.limits,
        )?;
        let put = PutTask::new(self.alloc, self.actor, commit, &self.limits)?;
        let _left = put.left();
        self.phase = Phase::PutCommit(put);
        self.met = None;
        Ok(StepResult::More)
    }

    // nothing is left to do
    fn again(&mut self) -> StepResult<Result<Csum, BuildRefusal>>
        requires { IsEnded self.old.phase }
        ensures task { self.new ≡ record self.old { met = None } }
        ensures turn { IsAgain self.old.phase result }
    {
        let Phase::Ended(commit) = &self.phase else {
            unreachable!()
        };
        let commit = *commit;
        self.met = None;
        StepResult::Done(Ok(commit))
    }
}

// the next object, or the sync of all
fn next_phase(build: &mut TreeBuild) -> Result<Phase, NoMemory>
    requires { IsTree build.old.items }
    ensures { Nexts build.old build.new result }
{
    match build.next()? {
        Some(object) => Ok(Phase::Made(object)),
        None => Ok(Phase::SyncObjects),
    }
}
