ghost use Rattle.std.specs.Prelude.{◌≡◌, ◌<◌, ◌+◌, ◌-◌, ◌^◌, ℕ, None, IfOk, length};
ghost use Rattle.ost_forms.specs.Commit.{commit_form};
ghost use Rattle.tree_build.specs.Items.{AreItems};
ghost use Rattle.tree_build.specs.Makeable.{AreMakeable, IsSmall};
ghost use Rattle.tree_build.specs.Objects.{work};
ghost use Rattle.obj_store.specs.Putting as putting;
ghost use Rattle.commit_build.specs.declared.phase.Phase.TheVariants as phase;
ghost use Rattle.commit_build.specs.Committing.{Committing, IsLate, IsMade, parts_of, commit_in, left, left_in, later, named_by, need_in, storing_in};

mod steps;
mod work;

use crate::message::Message;
use crate::phase::Phase;
use fs_trait::Need;
use obj_store::{Put, PutTask};
use ost_objects::TreeItem;
use ost_types::{Csum, Limits, NoMemory, ObjName, Text};
use std::alloc::Global;
use std::marker::Model;
use tree_build::TreeBuild;

/// The task that commits a tree, a step at a time. The objects of the tree are put, each after those that it names, and made to
/// outlast a crash; only then is the commit put, and only when it outlasts a crash too is its mark taken away. So wherever a
/// crash leaves the commit, all objects of its tree are there.
#[derive(Drop, Debug)]
pub struct CommitTask {
    alloc: Global,
    actor: u8,
    build: TreeBuild,
    limits: Limits,
    message: Message,
    phase: Phase,
    met: Option<(ObjName, Put)>,
}

impl Model for CommitTask {
    ghost use Rattle.std.specs.Prelude.{◌≡◌};
    ghost use Rattle.commit_build.specs.Committing.{Committing, IsMade};

    ghost Value = { Committing };

    ghost view = { λ a. record { actor = a.actor; items = a.build.items; limits = a.limits; message = a.message; made = a.build.done; phase = a.phase; met = a.met } };

    ghost invariant = { λ a. (a.build.limits ≡ a.limits) × IsMade (record { actor = a.actor; items = a.build.items; limits = a.limits; message = a.message; made = a.build.done; phase = a.phase; met = a.met }) };
}

impl CommitTask {
    /// Commits the tree of these items, with this parent, subject and body, and a time in seconds since 1970.
    pub fn new(
        alloc: Global,
        actor: u8,
        items: Vec<TreeItem>,
        parent: Option<Csum>,
        subject: Text,
        body: Text,
        time: u64,
        limits: Limits,
    ) -> Result<CommitTask, NoMemory>
        requires actor { actor < 16 }
        requires items { AreItems items.items }
        requires makeable { AreMakeable limits items.items }
        requires small { IsSmall (commit_form (parts_of items.items (record { parent = parent; subject = subject; body = body; time = time }))) }
        ensures value { IfOk result (λ t. t ≡ record { actor = actor; items = items.items; limits = limits; message = record { parent = parent; subject = subject; body = body; time = time }; made = 0; phase = phase.Check; met = None }) }
        ensures made { IfOk result IsMade }
    {
        Ok(CommitTask {
            alloc,
            actor,
            build: TreeBuild::new(alloc, items, limits),
            limits,
            message: Message {
                parent,
                subject,
                body,
                time,
            },
            phase: Phase::Check,
            met: None,
        })
    }

    /// What the last step stored or found.
    pub fn met(&self) -> Option<(ObjName, Put)>
        ensures met { result ≡ self.now.met }
        ensures made { IsMade self.now }
    {
        self.met
    }

    /// Who commits the tree.
    pub fn actor(&self) -> u8
        ensures actor { result ≡ self.now.actor }
        ensures small { result < 16 }
    {
        self.actor
    }

    /// The parent of the commit.
    pub fn parent(&self) -> Option<Csum>
        ensures { result ≡ self.now.message.parent }
    {
        self.message.parent
    }

    /// The object that the next step looks for, stages or puts; None once its path is seen to, and in every other step.
    pub fn storing(&self) -> Option<ObjName>
        ensures { result ≡ storing_in self.now.phase }
    {
        match &self.phase {
            Phase::Put(put) | Phase::PutCommit(put) => stored_by(put),
            _ => None,
        }
    }

    /// The commit, once all is done.
    pub fn commit(&self) -> Option<Csum>
        ensures { result ≡ commit_in self.now.phase }
    {
        match &self.phase {
            Phase::Ended(commit) => Some(*commit),
            _ => None,
        }
    }

    /// The lock under which the next step must stand.
    pub fn needs(&self) -> Need
        ensures { result ≡ need_in self.now.phase }
    {
        match &self.phase {
            Phase::Put(put) | Phase::PutCommit(put) => put.needs(),
            _ => Need::Nothing,
        }
    }

    /// At most so many steps are left; each object counts as a file of the greatest length.
    pub fn left(&self) -> u128
        ensures value { result ≡ left self.now }
        ensures small { result < 2 ^ 100 }
    {
        match &self.phase {
            Phase::Check => later(self.to_come()) + 1,
            Phase::Make => later(self.to_come()),
            Phase::Made(_) => later(self.to_come()) + (EACH - 1),
            Phase::Put(put) => later(self.to_come()) + put.left() + 1,
            late => left_late(late),
        }
    }

    // how many objects of the tree are still to be made; a path has at most two
    fn to_come(&self) -> u64
        ensures value { result ≡ length (work self.now.items) - self.now.made }
        ensures few { result < 2 ^ 34 }
    {
        let _paths = self.limits.paths;
        self.build.left()
    }
}

fn stored_by(put: &PutTask) -> Option<ObjName>
    ensures { result ≡ named_by (putting.need_in put.now.phase) put.now.name }
{
    match put.needs() {
        Need::Shared => Some(*put.name()),
        _ => None,
    }
}

/// More than the steps of any object: 2 to the 63, and 16.
const EACH: u128 = 9_223_372_036_854_775_824;

// for so many objects, and all that comes behind them
fn later(objects: u64) -> u128
    requires { objects < 2 ^ 34 }
    ensures value { result ≡ later objects }
    ensures small { result < 2 ^ 99 }
{
    objects as u128 * EACH + EACH + 6
}

// once all objects of the tree are there
fn left_late(phase: &Phase) -> u128
    requires { IsLate phase.now }
    ensures value { (n : ℕ) → result ≡ left_in phase.now n }
    ensures small { result < 2 ^ 99 }
{
    match phase {
        Phase::SyncObjects => EACH + 5,
        Phase::MakeCommit => EACH + 4,
        Phase::PutCommit(put) => put.left() + 4,
        Phase::SyncCommit(_) => 3,
        Phase::Unmark(_) => 2,
        Phase::SyncState(_) => 1,
        _ => 0,
    }
}
