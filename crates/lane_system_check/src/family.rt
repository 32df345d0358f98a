ghost use Rattle.lane_system_check.specs.Family.{wait_doing, wait_means};
ghost use Rattle.lane_system_check.specs.Laws.{wait_command_laws};

use crate::{WaitTask, WaitWords};
use boot_model::DepId;
use command::{Begun, Command, Query, Told};
use obj_store::Put;
use ost_types::{Limits, NoMemory, ObjName};
use ref_book::RefBook;
use rely_guarantee::Pin;
use std::alloc::Global;

impl Command for WaitTask {
    type Words = WaitWords;

    type Answer = u8;

    ghost means = { wait_means };

    ghost doing = { wait_doing };

    fn begin(
        _alloc: Global,
        _refs: &mut RefBook,
        _limits: Limits,
        _lane: u8,
        _deployments: &[DepId],
        words: &WaitWords,
    ) -> Result<Begun<WaitTask, u8>, NoMemory> {
        match words {
            WaitWords::Echo { number } => Ok(Begun::Answered(*number)),
            WaitWords::Wait { number, holds } => Ok(Begun::Runs(WaitTask {
                taken: 0,
                number: *number,
                holds: *holds,
            })),
        }
    }

    fn hear(&mut self, _told: Told) -> Told {
        Told { objects: 0 }
    }

    fn learn(&mut self, _refs: &RefBook, _deployments: &[DepId], _pins: &[Pin]) {}

    fn asks(&self, _actor: u8) -> Option<Query> {
        None
    }

    fn met(&self) -> Option<(ObjName, Put)> {
        None
    }

    fn into_answer(self) -> Option<u8> {
        Some(self.taken)
    }

    fn left(&self) -> u128 {
        self.number.saturating_sub(self.taken) as u128
    }

    ghost command_laws = { wait_command_laws };
}
