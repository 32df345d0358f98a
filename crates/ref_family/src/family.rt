ghost use Rattle.ref_family.specs.Family.{ref_means, ref_doing};
ghost use Rattle.ref_family.specs.Laws.{ref_command_laws};

use crate::{RefWords, RefsTask};
use boot_model::DepId;
use command::{Begun, Command, Query, Told, commit_of};
use obj_store::Put;
use ost_types::{Limits, NoMemory, ObjName, TryCopy};
use ref_book::RefBook;
use ref_command::{RefAnswer, RefCommand};
use rely_guarantee::Pin;
use std::alloc::Global;

impl Command for RefsTask {
    type Words = RefWords;

    type Answer = RefAnswer;

    ghost means = { ref_means };

    ghost doing = { ref_doing };

    fn begin(
        alloc: Global,
        refs: &mut RefBook,
        _limits: Limits,
        lane: u8,
        _deployments: &[DepId],
        words: &RefWords,
    ) -> Result<Begun<RefsTask, RefAnswer>, NoMemory> {
        match words {
            RefWords::RevParse { rev } => match commit_of(refs, rev) {
                None => Ok(Begun::Answered(RefAnswer::NoRef)),
                Some(commit) => Ok(Begun::Runs(RefsTask {
                    work: RefCommand::parse(alloc, commit),
                })),
            },
            RefWords::Reset { branch, commit } => {
                refs.make_room(branch)?;
                let seen = refs.get(branch);
                let work = RefCommand::reset(alloc, lane, branch.copy()?, seen, *commit);
                Ok(Begun::Runs(RefsTask { work }))
            }
            RefWords::DropRef { branch } => match refs.get(branch) {
                None => Ok(Begun::Answered(RefAnswer::NoRef)),
                Some(seen) => {
                    refs.make_room(branch)?;
                    let work = RefCommand::drop(alloc, lane, branch.copy()?, seen);
                    Ok(Begun::Runs(RefsTask { work }))
                }
            },
        }
    }

    fn hear(&mut self, _told: Told) -> Told {
        Told { objects: 0 }
    }

    fn learn(&mut self, _refs: &RefBook, _deployments: &[DepId], _pins: &[Pin]) {}

    fn asks(&self, _actor: u8) -> Option<Query> {
        None
    }

    fn met(&self) -> Option<(ObjName, Put)> {
        None
    }

    fn into_answer(self) -> Option<RefAnswer> {
        self.work.into_answer()
    }

    fn left(&self) -> u128 {
        self.work.left()
    }

    ghost command_laws = { ref_command_laws };
}
