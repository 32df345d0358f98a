ghost use Rattle.clean_family.specs.Family.{clean_doing, clean_means};
ghost use Rattle.clean_family.specs.Laws.{clean_command_laws};

use crate::{CleanWords, CleansTask};
use boot_model::DepId;
use clean_command::{CleanAnswer, CleanCommand};
use command::{Begun, Command, Query, Told};
use obj_store::Put;
use ost_types::{Limits, NoMemory, ObjName};
use ref_book::RefBook;
use rely_guarantee::Pin;
use std::alloc::Global;

impl Command for CleansTask {
    type Words = CleanWords;

    type Answer = CleanAnswer;

    ghost means = { clean_means };

    ghost doing = { clean_doing };

    fn begin(
        alloc: Global,
        _refs: &mut RefBook,
        _limits: Limits,
        lane: u8,
        _deployments: &[DepId],
        _words: &CleanWords,
    ) -> Result<Begun<CleansTask, CleanAnswer>, NoMemory> {
        let work = CleanCommand::new(alloc, lane);
        Ok(Begun::Runs(CleansTask { work }))
    }

    fn hear(&mut self, _told: Told) -> Told {
        Told { objects: 0 }
    }

    fn learn(&mut self, refs: &RefBook, deployments: &[DepId], pins: &[Pin]) {
        self.work.learn(refs, deployments, pins);
    }

    fn asks(&self, _actor: u8) -> Option<Query> {
        None
    }

    fn met(&self) -> Option<(ObjName, Put)> {
        None
    }

    fn into_answer(self) -> Option<CleanAnswer> {
        self.work.into_answer()
    }

    fn left(&self) -> u128 {
        self.work.left()
    }

    ghost command_laws = { clean_command_laws };
}
