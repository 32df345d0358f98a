ghost use Rattle.std.specs.Prelude.{◌≡◌, ◌<◌, ℕ, List, IfOk};
ghost use Rattle.ost_types.specs.declared.limits.Limits.{Limits};
ghost use Rattle.rely_guarantee.specs.State.{State, SystemState};
ghost use Rattle.ref_book.specs.Tracks.{Tracks, HasRoom};
ghost use Rattle.command.specs.Meaning.{Meaning};
ghost use Rattle.command.specs.Doing.{Doing, IsBegun};
ghost use Rattle.command.specs.Tasks.{task_spec};
ghost use Rattle.command.specs.Laws.{CommandLaws};

use crate::{Begun, Query, Told};
use boot_model::DepId;
use obj_store::Put;
use ost_types::{Limits, NoMemory, ObjName};
use ref_book::RefBook;
use rely_guarantee::{CommandTask, Pin};
use std::alloc::Global;

/// A family of commands: its tasks, and what its words and answers mean.
pub trait Command: CommandTask + Drop {
    /// A command with its fields.
    type Words: Drop;

    /// What a command that is done answers.
    type Answer: Drop;

    /// What the words and answers mean. No task is spoken of.
    ghost means: { Meaning Self.Words Self.Answer };

    /// What a task is to its command.
    ghost doing: { Doing Self Self.Words Self.Answer };

    /// What the command's first act comes to by the books alone: the refs, and the deployments that boot.
    fn begin(
        alloc: Global,
        refs: &mut RefBook,
        limits: Limits,
        lane: u8,
        deployments: &[DepId],
        words: &Self::Words,
    ) -> Result<Begun<Self, Self::Answer>, NoMemory>
        requires few { lane < 8 }
        requires fit { means.fit limits words.now }
        ensures refs { (s : State) → Tracks refs.old s → Tracks refs.new s }
        ensures rooms { (name : List ℕ) → HasRoom refs.old name → HasRoom refs.new name }
        ensures begun { (s : SystemState) → Tracks refs.old s.refs → s.deployments ≡ deployments.now → IfOk result (IsBegun means doing limits lane s words.now refs.new) };

    /// Tells the task what it has to know before its next step, and answers what it was told before.
    fn hear(&mut self, told: Told) -> Told
        ensures hears { self.new ≡ doing.hears told self.old }
        ensures heard { result ≡ doing.heard self.old };

    /// Tells the task behind a step of it that goes on what refs name then, which deployments boot, and what is
    /// pinned. One that doesn't wait for this is as it was.
    fn learn(&mut self, refs: &RefBook, deployments: &[DepId], pins: &[Pin])
        ensures { doing.learns refs.now deployments.now pins.now self.old self.new };

    /// What the next step of this actor waits for.
    fn asks(&self, actor: u8) -> Option<Query>
        ensures { result ≡ doing.asks actor self.now };

    /// The object that the last step stored or found, if it did.
    fn met(&self) -> Option<(ObjName, Put)>
        ensures { result ≡ doing.met self.now };

    /// What it answers, once it is done.
    fn into_answer(self) -> Option<Self::Answer>
        ensures { result ≡ doing.answer self };

    /// At most so many steps are left.
    fn left(&self) -> u128
        ensures { result ≡ doing.left self.now };

    /// What each family proves.
    ghost command_laws: { CommandLaws (task_spec Self.kind_of Self.writes_of Self.stepped Self.leaves Self.refuses Self.facts) means doing };
}
