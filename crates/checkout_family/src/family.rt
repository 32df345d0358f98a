ghost use Rattle.std.specs.Prelude.{◌≡◌, ◌≤◌, Some, IfOk};
ghost use Rattle.command.specs.Doing.{most};
ghost use Rattle.checkout_command.specs.Asked.{asked};
ghost use Rattle.checkout_command.specs.Commands.{IsNew, checkout_left};
ghost use Rattle.checkout_family.specs.Family.{checkout_means, checkout_doing, checkout_reply};
ghost use Rattle.checkout_family.specs.Laws.{checkout_command_laws};

use crate::{CheckoutReply, CheckoutWords, CheckoutsTask};
use boot_model::DepId;
use checkout_command::{CheckoutAnswer, CheckoutCommand};
use command::{Begun, Command, Query, Told, commit_of};
use obj_store::Put;
use ost_types::{Csum, Limits, Name, NoMemory, ObjName, TryCopy};
use ref_book::RefBook;
use rely_guarantee::Pin;
use std::alloc::Global;

fn task_of(
    alloc: Global,
    limits: Limits,
    commit: Csum,
    name: &Name,
) -> Result<CheckoutCommand, NoMemory>
    ensures new { IfOk result IsNew }
    ensures asked { IfOk result (λ t. asked t ≡ Some (record { limits = limits; commit = commit; name = name.now })) }
    ensures left { IfOk result (λ t. checkout_left t ≤ most) }
{
    Ok(CheckoutCommand::new(alloc, limits, commit, name.copy()?))
}

fn reply(answer: Option<CheckoutAnswer>) -> Option<CheckoutReply>
    ensures { result ≡ checkout_reply answer }
{
    match answer {
        None => None,
        Some(answer) => Some(CheckoutReply::Tried(answer)),
    }
}

impl Command for CheckoutsTask {
    type Words = CheckoutWords;

    type Answer = CheckoutReply;

    ghost means = { checkout_means };

    ghost doing = { checkout_doing };

    fn begin(
        alloc: Global,
        refs: &mut RefBook,
        limits: Limits,
        _lane: u8,
        _deployments: &[DepId],
        words: &CheckoutWords,
    ) -> Result<Begun<CheckoutsTask, CheckoutReply>, NoMemory> {
        match commit_of(refs, &words.rev) {
            None => Ok(Begun::Answered(CheckoutReply::NoRef)),
            Some(commit) => {
                let work = task_of(alloc, limits, commit, &words.name)?;
                Ok(Begun::Runs(CheckoutsTask { work }))
            }
        }
    }

    fn hear(&mut self, _told: Told) -> Told {
        Told { objects: 0 }
    }

    fn learn(&mut self, _refs: &RefBook, _deployments: &[DepId], _pins: &[Pin]) {}

    fn asks(&self, _actor: u8) -> Option<Query> {
        None
    }

    fn met(&self) -> Option<(ObjName, Put)> {
        None
    }

    fn into_answer(self) -> Option<CheckoutReply> {
        reply(self.work.into_answer())
    }

    fn left(&self) -> u128 {
        self.work.left()
    }

    ghost command_laws = { checkout_command_laws };
}
