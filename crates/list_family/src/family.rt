ghost use Rattle.list_family.specs.Family.{list_doing, list_means};
ghost use Rattle.list_family.specs.Laws.{list_command_laws};

use crate::status::status_rows;
use crate::{ListAnswer, ListTask, ListWords};
use boot_model::DepId;
use command::{Begun, Command, Query, Told};
use obj_store::Put;
use ost_types::{Limits, NoMemory, ObjName};
use ref_book::RefBook;
use rely_guarantee::Pin;
use std::alloc::Global;

impl Command for ListTask {
    type Words = ListWords;

    type Answer = ListAnswer;

    ghost means = { list_means };

    ghost doing = { list_doing };

    fn begin(
        alloc: Global,
        refs: &mut RefBook,
        _limits: Limits,
        _lane: u8,
        deployments: &[DepId],
        words: &ListWords,
    ) -> Result<Begun<ListTask, ListAnswer>, NoMemory> {
        match words {
            ListWords::Refs => Ok(Begun::Answered(ListAnswer::Refs(refs.rows()?))),
            ListWords::Status => {
                let rows = status_rows(alloc, deployments)?;
                Ok(Begun::Answered(ListAnswer::Status(rows)))
            }
        }
    }

    fn hear(&mut self, _told: Told) -> Told {
        Told { objects: 0 }
    }

    fn learn(&mut self, _refs: &RefBook, _deployments: &[DepId], _pins: &[Pin]) {}

    fn asks(&self, _actor: u8) -> Option<Query> {
        None
    }

    fn met(&self) -> Option<(ObjName, Put)> {
        None
    }

    fn into_answer(self) -> Option<ListAnswer> {
        None
    }

    fn left(&self) -> u128 {
        0
    }

    ghost command_laws = { list_command_laws };
}
