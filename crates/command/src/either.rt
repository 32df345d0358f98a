ghost use Rattle.command.specs.EitherMeaning.{either_means, either_doing};
ghost use Rattle.command.specs.EitherLaws.{either_command_laws};

use crate::{Begun, Command, Query, Told};
use boot_model::DepId;
use obj_store::Put;
use ost_types::{Limits, NoMemory, ObjName};
use ref_book::RefBook;
use rely_guarantee::{Either, Pin};
use std::alloc::Global;

impl<A: Command, B: Command> Command for Either<A, B> {
    type Words = Either<A::Words, B::Words>;

    type Answer = Either<A::Answer, B::Answer>;

    ghost means = { either_means A.means B.means };

    ghost doing = { either_doing A.doing B.doing };

    fn begin(
        alloc: Global,
        refs: &mut RefBook,
        limits: Limits,
        lane: u8,
        deployments: &[DepId],
        words: &Either<A::Words, B::Words>,
    ) -> Result<Begun<Either<A, B>, Either<A::Answer, B::Answer>>, NoMemory> {
        match words {
            Either::Left(words) => match A::begin(alloc, refs, limits, lane, deployments, words)? {
                Begun::Answered(answer) => Ok(Begun::Answered(Either::Left(answer))),
                Begun::Runs(task) => Ok(Begun::Runs(Either::Left(task))),
            },
            Either::Right(words) => match B::begin(alloc, refs, limits, lane, deployments, words)? {
                Begun::Answered(answer) => Ok(Begun::Answered(Either::Right(answer))),
                Begun::Runs(task) => Ok(Begun::Runs(Either::Right(task))),
            },
        }
    }

    fn hear(&mut self, told: Told) -> Told {
        match self {
            Either::Left(task) => task.hear(told),
            Either::Right(task) => task.hear(told),
        }
    }

    fn learn(&mut self, refs: &RefBook, deployments: &[DepId], pins: &[Pin]) {
        match self {
            Either::Left(task) => task.learn(refs, deployments, pins),
            Either::Right(task) => task.learn(refs, deployments, pins),
        }
    }

    fn asks(&self, actor: u8) -> Option<Query> {
        match self {
            Either::Left(task) => task.asks(actor),
            Either::Right(task) => task.asks(actor),
        }
    }

    fn met(&self) -> Option<(ObjName, Put)> {
        match self {
            Either::Left(task) => task.met(),
            Either::Right(task) => task.met(),
        }
    }

    fn into_answer(self) -> Option<Either<A::Answer, B::Answer>> {
        match self {
            Either::Left(task) => match task.into_answer() {
                None => None,
                Some(answer) => Some(Either::Left(answer)),
            },
            Either::Right(task) => match task.into_answer() {
                None => None,
                Some(answer) => Some(Either::Right(answer)),
            },
        }
    }

    fn left(&self) -> u128 {
        match self {
            Either::Left(task) => task.left(),
            Either::Right(task) => task.left(),
        }
    }

    ghost command_laws = { either_command_laws A.command_laws B.command_laws };
}
