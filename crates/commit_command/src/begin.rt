//! How a commit begins, and what it tells.
ghost use Rattle.std.specs.Prelude.{◌≡◌, ◌<◌, ◌^◌, None, IfOk};
ghost use Rattle.ost_forms.specs.Commit.{commit_form};
ghost use Rattle.tree_build.specs.Items.{AreItems};
ghost use Rattle.tree_build.specs.Makeable.{AreMakeable, IsSmall};
ghost use Rattle.commit_build.specs.declared.phase.Phase.TheVariants as phase;
ghost use Rattle.commit_build.specs.Committing as building;
ghost use Rattle.commit_build.specs.Committing.{IsMade};
ghost use Rattle.commit_command.specs.Answers.{Begins, IsCommitOf, answer_of};
ghost use Rattle.commit_command.specs.Kinds.{commit_left, met_in};

use crate::answer::built_answer;
use crate::{CommitAnswer, CommitCommand};
use commit_build::CommitTask;
use obj_store::Put;
use ost_objects::TreeItem;
use ost_types::{Csum, Limits, NoMemory, ObjName, Text};
use repo_layout::RefName;
use std::alloc::Global;
use std::mem;

// more than the steps of any change of a ref
const CHANGE: u128 = 170_141_183_460_469_231_731_687_303_715_884_106_752;

impl CommitCommand {
    /// Commits the tree of these items with this subject and body, and a time in seconds since 1970, and lets the ref name the
    /// commit. So far the ref must have the value `seen`, None where there is no such ref; that is the commit's parent.
    pub fn new(
        alloc: Global,
        lane: u8,
        name: RefName,
        seen: Option<Csum>,
        items: Vec<TreeItem>,
        subject: Text,
        body: Text,
        time: u64,
        limits: Limits,
    ) -> Result<CommitCommand, NoMemory>
        requires lane { lane < 16 }
        requires items { AreItems items.items }
        requires makeable { AreMakeable limits items.items }
        requires small { IsSmall (commit_form (building.parts_of items.items (record { parent = seen; subject = subject; body = body; time = time }))) }
        ensures commit { IfOk result (IsCommitOf name (record { actor = lane; items = items.items; limits = limits; message = record { parent = seen; subject = subject; body = body; time = time }; made = 0; phase = phase.Check; met = None })) }
        ensures begins { IfOk result (Begins lane) }
        ensures left { IfOk result (λ t. commit_left t < 2 ^ 128) }
    {
        let _text = name.as_slice();
        let build = CommitTask::new(alloc, lane, items, seen, subject, body, time, limits)?;
        let _left = build.left();
        Ok(CommitCommand {
            alloc,
            build,
            name,
            objects: 0,
            pinned: false,
            refusal: None,
            change: None,
        })
    }

    /// How many objects are in the store now. To be told before each step; gives the number that was told before.
    pub fn tell(&mut self, objects: u32) -> u32
        ensures told { self.new ≡ record self.old { objects = objects } }
        ensures former { result ≡ self.old.objects }
    {
        mem::replace(&mut self.objects, objects)
    }

    /// What the last step stored or found, if it was done.
    pub fn met(&self) -> Option<(ObjName, Put)>
        ensures met { result ≡ met_in self.now.change self.now.build }
        ensures made { IsMade self.now.build }
    {
        let met = self.build.met();
        match &self.change {
            None => met,
            Some(_) => None,
        }
    }

    /// What it answers, once it is done.
    pub fn into_answer(self) -> Option<CommitAnswer>
        ensures { result ≡ answer_of self }
    {
        let CommitCommand {
            refusal,
            change,
            ..
        } = self;
        match change {
            None => built_answer(refusal),
            Some(naming) => naming.into_answer(),
        }
    }

    /// At most so many steps are left.
    pub fn left(&self) -> u128
        ensures { result ≡ commit_left self.now }
    {
        match &self.change {
            None => self.build.left() + CHANGE,
            Some(naming) => naming.work.left(),
        }
    }
}
