ghost use Rattle.std.specs.Prelude.{◌≡◌, ◌≤◌, Some, IfOk};
ghost use Rattle.command.specs.Doing.{most};
ghost use Rattle.read_command.specs.Asked.{asked};
ghost use Rattle.read_command.specs.Commands.{IsNew, read_left};
ghost use Rattle.read_family.specs.Family.{read_means, read_doing, read_reply};
ghost use Rattle.read_family.specs.Laws.{read_command_laws};

use crate::{ReadReply, ReadTask, ReadWords};
use boot_model::DepId;
use command::{Begun, Command, Query, Told, commit_of};
use obj_store::Put;
use ost_types::{Csum, Limits, NoMemory, ObjName, TryCopy};
use read_command::{Ask, ReadAnswer, ReadCommand};
use ref_book::RefBook;
use rely_guarantee::Pin;
use std::alloc::Global;

fn task_of(alloc: Global, limits: Limits, commit: Csum, ask: &Ask) -> Result<ReadCommand, NoMemory>
    ensures new { IfOk result IsNew }
    ensures asked { IfOk result (λ t. asked t ≡ Some (record { limits = limits; commit = commit; ask = ask.now })) }
    ensures left { IfOk result (λ t. read_left t ≤ most) }
{
    match ask {
        Ask::Cat(path) => Ok(ReadCommand::cat(alloc, limits, commit, path.copy()?)),
        Ask::Ls(path) => Ok(ReadCommand::ls(alloc, limits, commit, path.copy()?)),
        Ask::Log => Ok(ReadCommand::log(alloc, limits, commit)),
    }
}

fn reply(answer: Option<ReadAnswer>) -> Option<ReadReply>
    ensures { result ≡ read_reply answer }
{
    match answer {
        None => None,
        Some(answer) => Some(ReadReply::Read(answer)),
    }
}

impl Command for ReadTask {
    type Words = ReadWords;

    type Answer = ReadReply;

    ghost means = { read_means };

    ghost doing = { read_doing };

    fn begin(
        alloc: Global,
        refs: &mut RefBook,
        limits: Limits,
        _lane: u8,
        _deployments: &[DepId],
        words: &ReadWords,
    ) -> Result<Begun<ReadTask, ReadReply>, NoMemory> {
        match commit_of(refs, &words.rev) {
            None => Ok(Begun::Answered(ReadReply::NoRef)),
            Some(commit) => {
                let work = task_of(alloc, limits, commit, &words.ask)?;
                Ok(Begun::Runs(ReadTask { work }))
            }
        }
    }

    fn hear(&mut self, _told: Told) -> Told {
        Told { objects: 0 }
    }

    fn learn(&mut self, _refs: &RefBook, _deployments: &[DepId], _pins: &[Pin]) {}

    fn asks(&self, _actor: u8) -> Option<Query> {
        None
    }

    fn met(&self) -> Option<(ObjName, Put)> {
        None
    }

    fn into_answer(self) -> Option<ReadReply> {
        reply(self.work.into_answer())
    }

    fn left(&self) -> u128 {
        self.work.left()
    }

    ghost command_laws = { read_command_laws };
}
