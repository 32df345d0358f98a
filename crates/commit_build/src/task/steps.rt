//! The steps of committing a tree, one function a phase; those that make no call stand in `work`.
ghost use Rattle.std.specs.Prelude.{◌≡◌, ◌≤◌, ◌<◌, ◌+◌, ℕ, true, false, Option, Some, None, Err, OnOk, IfOk, IfErr, IsErrOf};
ghost use Rattle.fs_trait.specs.View.{View};
ghost use Rattle.fs_trait.specs.Image.{Told};
ghost use Rattle.fs_trait.specs.Effect.{Elapses, HasCause, OfFinding};
ghost use Rattle.fs_trait.specs.Change.{Writes};
ghost use Rattle.fs_trait.specs.declared.types.FsErr.TheVariants as err;
ghost use Rattle.commit_build.specs.declared.phase.Phase.TheVariants as phase;
ghost use Rattle.commit_build.specs.declared.refusal.BuildRefusal.TheVariants as refusal;
ghost use Rattle.fs_trait.specs.declared.task.StepResult.TheVariants as turn;
ghost use Rattle.commit_build.specs.Committing.{Committing, IsPut, IsPutCommit, IsSyncCommit, IsUnmark, IsSyncState, IsStepped, MayTick, OnMore, Takes, left, met_of};
ghost use Rattle.commit_build.specs.Steps.{Needs, WritesOf, WritesIn, Refuses, Tells, OfPhase, TakesLeaf, is_leaf_node};

use super::CommitTask;
use crate::advance::{Progress, advance};
use crate::phase::Phase;
use crate::refusal::BuildRefusal;
use fs_trait::{Fs, FsErr, Node, StepResult};
use obj_store::Put;
use ost_types::{Csum, FsPath, ObjName};
use repo_layout::{Folder, folder_path, mark_path};

impl CommitTask {
    /// Does the next step: at most one changing call and two reading ones. `count` is the number of objects in the store now.
    /// After an error the task is unchanged, so that the step may be tried again.
    pub fn step<F: Fs>(
        &mut self,
        fs: &mut F,
        count: u32,
    ) -> Result<StepResult<Result<Csum, BuildRefusal>>, FsErr>
        requires { (v : View) → F.view fs.old ≡ Some v → Needs self.old v }
        ensures writes { (v : View) → F.view fs.old ≡ Some v → Told (F.view fs.new) (λ w. Writes (WritesOf self.old v) v w) }
        ensures few { (v : View) → F.view fs.old ≡ Some v → Told (F.view fs.new) (λ w. Writes (WritesIn count self.old v) v w) }
        ensures after { (v : View) → F.view fs.old ≡ Some v → OnOk result (Told (F.view fs.new) (λ w. Needs self.new w)) }
        ensures tells { (v : View) → F.view fs.old ≡ Some v → IfOk result (λ turn. Told (F.view fs.new) (λ w. Tells count self.old self.new v w turn)) }
        ensures fails { (v : View) → F.view fs.old ≡ Some v → IfErr result (Refuses self.old v) }
        ensures unchanged { (v : View) → F.view fs.old ≡ Some v → IsErrOf result err.NoMemory → F.view fs.new ≡ Some v }
        ensures named { IfErr result (OfPhase self.old.phase) }
        ensures stepped { IsStepped count self.old result self.new }
        ensures falls { OnMore result (left self.new < left self.old) }
        ensures time { Elapses (F.clock fs.old) (F.clock fs.new) (F.was fs.old) (F.was fs.new) (F.view fs.new) }
        ensures ticks { OnOk result (Takes self.old.phase (F.clock fs.old) (F.clock fs.new)) }
        ensures cause { HasCause (F.faults fs.old) (F.faults fs.new) result }
        ensures room { F.spare fs.old ≤ F.spare fs.new + 1 }
    {
        match self.phase {
            Phase::Put(_) => self.put_object(fs, count),
            Phase::PutCommit(_) => self.put_commit(fs, count),
            Phase::SyncObjects => self.sync_objects(fs),
            Phase::SyncCommit(_) => self.sync_commit(fs),
            Phase::Unmark(_) => self.unmark(fs),
            Phase::SyncState(_) => self.sync_state(fs),
            _ => Ok(self.work()?),
        }
    }

    fn put_object<F: Fs>(
        &mut self,
        fs: &mut F,
        count: u32,
    ) -> Result<StepResult<Result<Csum, BuildRefusal>>, FsErr>
        requires phase { IsPut self.old.phase }
        requires needs { (v : View) → F.view fs.old ≡ Some v → Needs self.old v }
        ensures writes { (v : View) → F.view fs.old ≡ Some v → Told (F.view fs.new) (λ w. Writes (WritesOf self.old v) v w) }
        ensures few { (v : View) → F.view fs.old ≡ Some v → Told (F.view fs.new) (λ w. Writes (WritesIn count self.old v) v w) }
        ensures after { (v : View) → F.view fs.old ≡ Some v → OnOk result (Told (F.view fs.new) (λ w. Needs self.new w)) }
        ensures tells { (v : View) → F.view fs.old ≡ Some v → IfOk result (λ turn. Told (F.view fs.new) (λ w. Tells count self.old self.new v w turn)) }
        ensures fails { (v : View) → F.view fs.old ≡ Some v → IfErr result (Refuses self.old v) }
        ensures unchanged { (v : View) → F.view fs.old ≡ Some v → IsErrOf result err.NoMemory → F.view fs.new ≡ Some v }
        ensures named { IfErr result (OfPhase self.old.phase) }
        ensures stepped { IsStepped count self.old result self.new }
        ensures falls { OnMore result (left self.new < left self.old) }
        ensures time { Elapses (F.clock fs.old) (F.clock fs.new) (F.was fs.old) (F.was fs.new) (F.view fs.new) }
        ensures ticks { OnOk result (Takes self.old.phase (F.clock fs.old) (F.clock fs.new)) }
        ensures cause { HasCause (F.faults fs.old) (F.faults fs.new) result }
        ensures room { F.spare fs.old ≤ F.spare fs.new + 1 }
    {
        let full = at_bound(count, self.limits.objects);
        let Phase::Put(put) = &mut self.phase else {
            unreachable!()
        };
        let name = *put.name();
        match advance(put, fs, full)? {
            Progress::Full => Ok(self.full()),
            Progress::Further(end) => {
                self.met = met_of(name, end);
                Ok(StepResult::More)
            }
            Progress::Over(end) => {
                self.met = met_of(name, end);
                self.phase = Phase::Make;
                Ok(StepResult::More)
            }
        }
    }

    fn put_commit<F: Fs>(
        &mut self,
        fs: &mut F,
        count: u32,
    ) -> Result<StepResult<Result<Csum, BuildRefusal>>, FsErr>
        requires phase { IsPutCommit self.old.phase }
        requires needs { (v : View) → F.view fs.old ≡ Some v → Needs self.old v }
        ensures writes { (v : View) → F.view fs.old ≡ Some v → Told (F.view fs.new) (λ w. Writes (WritesOf self.old v) v w) }
        ensures few { (v : View) → F.view fs.old ≡ Some v → Told (F.view fs.new) (λ w. Writes (WritesIn count self.old v) v w) }
        ensures after { (v : View) → F.view fs.old ≡ Some v → OnOk result (Told (F.view fs.new) (λ w. Needs self.new w)) }
        ensures tells { (v : View) → F.view fs.old ≡ Some v → IfOk result (λ turn. Told (F.view fs.new) (λ w. Tells count self.old self.new v w turn)) }
        ensures fails { (v : View) → F.view fs.old ≡ Some v → IfErr result (Refuses self.old v) }
        ensures unchanged { (v : View) → F.view fs.old ≡ Some v → IsErrOf result err.NoMemory → F.view fs.new ≡ Some v }
        ensures named { IfErr result (OfPhase self.old.phase) }
        ensures stepped { IsStepped count self.old result self.new }
        ensures falls { OnMore result (left self.new < left self.old) }
        ensures time { Elapses (F.clock fs.old) (F.clock fs.new) (F.was fs.old) (F.was fs.new) (F.view fs.new) }
        ensures ticks { OnOk result (Takes self.old.phase (F.clock fs.old) (F.clock fs.new)) }
        ensures cause { HasCause (F.faults fs.old) (F.faults fs.new) result }
        ensures room { F.spare fs.old ≤ F.spare fs.new + 1 }
    {
        let full = at_bound(count, self.limits.objects);
        let Phase::PutCommit(put) = &mut self.phase else {
            unreachable!()
        };
        let name = *put.name();
        let commit = put.name().csum;
        match advance(put, fs, full)? {
            Progress::Full => Ok(self.full()),
            Progress::Further(end) => {
                self.met = met_of(name, end);
                Ok(StepResult::More)
            }
            Progress::Over(end) => {
                self.met = met_of(name, end);
                self.phase = Phase::SyncCommit(commit);
                Ok(StepResult::More)
            }
        }
    }

    // there is no room for the object
    fn full(&mut self) -> StepResult<Result<Csum, BuildRefusal>>
        ensures task { self.new ≡ record self.old { met = None } }
        ensures turn { result ≡ turn.Done (Err (refusal.TooMany (self.old.limits.objects + 1))) }
    {
        self.met = None;
        StepResult::Done(Err(BuildRefusal::TooMany(self.limits.objects as u64 + 1)))
    }

    fn sync_objects<F: Fs>(
        &mut self,
        fs: &mut F,
    ) -> Result<StepResult<Result<Csum, BuildRefusal>>, FsErr>
        requires phase { self.old.phase ≡ phase.SyncObjects }
        requires needs { (v : View) → F.view fs.old ≡ Some v → Needs self.old v }
        ensures writes { (v : View) → F.view fs.old ≡ Some v → Told (F.view fs.new) (λ w. Writes (WritesOf self.old v) v w) }
        ensures after { (v : View) → F.view fs.old ≡ Some v → OnOk result (Told (F.view fs.new) (λ w. Needs self.new w)) }
        ensures tells { (count : ℕ) (v : View) → F.view fs.old ≡ Some v → IfOk result (λ turn. Told (F.view fs.new) (λ w. Tells count self.old self.new v w turn)) }
        ensures fails { (v : View) → F.view fs.old ≡ Some v → IfErr result (Refuses self.old v) }
        ensures unchanged { (v : View) → F.view fs.old ≡ Some v → IsErrOf result err.NoMemory → F.view fs.new ≡ Some v }
        ensures named { IfErr result (OfPhase self.old.phase) }
        ensures stepped { (count : ℕ) → IsStepped count self.old result self.new }
        ensures falls { OnMore result (left self.new < left self.old) }
        ensures time { Elapses (F.clock fs.old) (F.clock fs.new) (F.was fs.old) (F.was fs.new) (F.view fs.new) }
        ensures ticks { OnOk result (Takes self.old.phase (F.clock fs.old) (F.clock fs.new)) }
        ensures cause { HasCause (F.faults fs.old) (F.faults fs.new) result }
        ensures room { F.spare fs.old ≤ F.spare fs.new + 1 }
    {
        fs.sync_all()?;
        self.phase = Phase::MakeCommit;
        self.met = None;
        Ok(StepResult::More)
    }

    fn sync_commit<F: Fs>(
        &mut self,
        fs: &mut F,
    ) -> Result<StepResult<Result<Csum, BuildRefusal>>, FsErr>
        requires phase { IsSyncCommit self.old.phase }
        requires needs { (v : View) → F.view fs.old ≡ Some v → Needs self.old v }
        ensures writes { (v : View) → F.view fs.old ≡ Some v → Told (F.view fs.new) (λ w. Writes (WritesOf self.old v) v w) }
        ensures after { (v : View) → F.view fs.old ≡ Some v → OnOk result (Told (F.view fs.new) (λ w. Needs self.new w)) }
        ensures tells { (count : ℕ) (v : View) → F.view fs.old ≡ Some v → IfOk result (λ turn. Told (F.view fs.new) (λ w. Tells count self.old self.new v w turn)) }
        ensures fails { (v : View) → F.view fs.old ≡ Some v → IfErr result (Refuses self.old v) }
        ensures unchanged { (v : View) → F.view fs.old ≡ Some v → IsErrOf result err.NoMemory → F.view fs.new ≡ Some v }
        ensures named { IfErr result (OfPhase self.old.phase) }
        ensures stepped { (count : ℕ) → IsStepped count self.old result self.new }
        ensures falls { OnMore result (left self.new < left self.old) }
        ensures time { Elapses (F.clock fs.old) (F.clock fs.new) (F.was fs.old) (F.was fs.new) (F.view fs.new) }
        ensures ticks { OnOk result (Takes self.old.phase (F.clock fs.old) (F.clock fs.new)) }
        ensures cause { HasCause (F.faults fs.old) (F.faults fs.new) result }
        ensures room { F.spare fs.old ≤ F.spare fs.new + 1 }
    {
        let Phase::SyncCommit(commit) = &self.phase else {
            unreachable!()
        };
        let commit = *commit;
        fs.sync_all()?;
        self.phase = Phase::Unmark(commit);
        self.met = None;
        Ok(StepResult::More)
    }

    fn unmark<F: Fs>(&mut self, fs: &mut F) -> Result<StepResult<Result<Csum, BuildRefusal>>, FsErr>
        requires phase { IsUnmark self.old.phase }
        requires needs { (v : View) → F.view fs.old ≡ Some v → Needs self.old v }
        ensures writes { (v : View) → F.view fs.old ≡ Some v → Told (F.view fs.new) (λ w. Writes (WritesOf self.old v) v w) }
        ensures after { (v : View) → F.view fs.old ≡ Some v → OnOk result (Told (F.view fs.new) (λ w. Needs self.new w)) }
        ensures tells { (count : ℕ) (v : View) → F.view fs.old ≡ Some v → IfOk result (λ turn. Told (F.view fs.new) (λ w. Tells count self.old self.new v w turn)) }
        ensures fails { (v : View) → F.view fs.old ≡ Some v → IfErr result (Refuses self.old v) }
        ensures unchanged { (v : View) → F.view fs.old ≡ Some v → IsErrOf result err.NoMemory → F.view fs.new ≡ Some v }
        ensures named { IfErr result (OfPhase self.old.phase) }
        ensures stepped { (count : ℕ) → IsStepped count self.old result self.new }
        ensures falls { OnMore result (left self.new < left self.old) }
        ensures time { Elapses (F.clock fs.old) (F.clock fs.new) (F.was fs.old) (F.was fs.new) (F.view fs.new) }
        ensures ticks { OnOk result (Takes self.old.phase (F.clock fs.old) (F.clock fs.new)) }
        ensures cause { HasCause (F.faults fs.old) (F.faults fs.new) result }
        ensures room { F.spare fs.old ≤ F.spare fs.new + 1 }
    {
        let Phase::Unmark(commit) = &self.phase else {
            unreachable!()
        };
        let commit = *commit;
        let mark = mark_path(self.alloc, &commit)?;
        take_mark(fs, &mark)?;
        self.phase = Phase::SyncState(commit);
        self.met = None;
        Ok(StepResult::More)
    }

    fn sync_state<F: Fs>(
        &mut self,
        fs: &mut F,
    ) -> Result<StepResult<Result<Csum, BuildRefusal>>, FsErr>
        requires phase { IsSyncState self.old.phase }
        requires needs { (v : View) → F.view fs.old ≡ Some v → Needs self.old v }
        ensures writes { (v : View) → F.view fs.old ≡ Some v → Told (F.view fs.new) (λ w. Writes (WritesOf self.old v) v w) }
        ensures after { (v : View) → F.view fs.old ≡ Some v → OnOk result (Told (F.view fs.new) (λ w. Needs self.new w)) }
        ensures tells { (count : ℕ) (v : View) → F.view fs.old ≡ Some v → IfOk result (λ turn. Told (F.view fs.new) (λ w. Tells count self.old self.new v w turn)) }
        ensures fails { (v : View) → F.view fs.old ≡ Some v → IfErr result (Refuses self.old v) }
        ensures unchanged { (v : View) → F.view fs.old ≡ Some v → IsErrOf result err.NoMemory → F.view fs.new ≡ Some v }
        ensures named { IfErr result (OfPhase self.old.phase) }
        ensures stepped { (count : ℕ) → IsStepped count self.old result self.new }
        ensures falls { OnMore result (left self.new < left self.old) }
        ensures time { Elapses (F.clock fs.old) (F.clock fs.new) (F.was fs.old) (F.was fs.new) (F.view fs.new) }
        ensures ticks { OnOk result (Takes self.old.phase (F.clock fs.old) (F.clock fs.new)) }
        ensures cause { HasCause (F.faults fs.old) (F.faults fs.new) result }
        ensures room { F.spare fs.old ≤ F.spare fs.new + 1 }
    {
        let Phase::SyncState(commit) = &self.phase else {
            unreachable!()
        };
        let commit = *commit;
        let state = folder_path(self.alloc, Folder::State)?;
        fs.sync_dir(&state)?;
        self.phase = Phase::Ended(commit);
        self.met = None;
        Ok(StepResult::Done(Ok(commit)))
    }
}

/// Takes the leaf at this path away, where one stands there.
fn take_mark<F: Fs>(fs: &mut F, mark: &FsPath) -> Result<(), FsErr>
    ensures effect { (v : View) → F.view fs.old ≡ Some v → TakesLeaf mark.now v result (F.view fs.new) }
    ensures named { IfErr result OfFinding }
    ensures time { Elapses (F.clock fs.old) (F.clock fs.new) (F.was fs.old) (F.was fs.new) (F.view fs.new) }
    ensures ticks { OnOk result (MayTick (F.clock fs.old) (F.clock fs.new)) }
    ensures cause { HasCause (F.faults fs.old) (F.faults fs.new) result }
    ensures room { F.spare fs.old ≤ F.spare fs.new + 1 }
{
    if is_leaf(&fs.stat(mark)?) {
        return fs.unlink(mark);
    }
    Ok(())
}

fn is_leaf(node: &Option<Node>) -> bool
    ensures { result ≡ is_leaf_node node.now }
{
    match node {
        None | Some(Node::Folder(_)) => false,
        Some(_) => true,
    }
}

// whether there are as many objects as there may be
fn at_bound(count: u32, most: u32) -> bool
    ensures full { result ≡ true → most ≤ count }
    ensures room { result ≡ false → count < most }
{
    count >= most
}

// what a step stored or found
fn met_of(name: ObjName, end: Option<Put>) -> Option<(ObjName, Put)>
    ensures { result ≡ met_of name end }
{
    match end {
        None => None,
        Some(put) => Some((name, put)),
    }
}
