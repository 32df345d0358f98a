ghost use Rattle.prune_family.specs.Family.{prune_doing, prune_means};
ghost use Rattle.prune_family.specs.Laws.{prune_command_laws};

use crate::{PruneTask, PruneWords};
use boot_model::DepId;
use command::{Begun, Command, Query, Told};
use obj_store::Put;
use ost_types::{Limits, NoMemory, ObjName};
use prune_command::{PruneAnswer, PruneCommand};
use ref_book::RefBook;
use rely_guarantee::Pin;
use std::alloc::Global;

impl Command for PruneTask {
    type Words = PruneWords;

    type Answer = PruneAnswer;

    ghost means = { prune_means };

    ghost doing = { prune_doing };

    fn begin(
        alloc: Global,
        _refs: &mut RefBook,
        limits: Limits,
        lane: u8,
        _deployments: &[DepId],
        words: &PruneWords,
    ) -> Result<Begun<PruneTask, PruneAnswer>, NoMemory> {
        let work = PruneCommand::new(alloc, lane, words.depth, limits);
        Ok(Begun::Runs(PruneTask { work }))
    }

    fn hear(&mut self, _told: Told) -> Told {
        Told { objects: 0 }
    }

    fn learn(&mut self, refs: &RefBook, deployments: &[DepId], pins: &[Pin]) {
        self.work.learn(refs, deployments, pins);
    }

    fn asks(&self, _actor: u8) -> Option<Query> {
        None
    }

    fn met(&self) -> Option<(ObjName, Put)> {
        None
    }

    fn into_answer(self) -> Option<PruneAnswer> {
        self.work.into_answer()
    }

    fn left(&self) -> u128 {
        self.work.left()
    }

    ghost command_laws = { prune_command_laws };
}
