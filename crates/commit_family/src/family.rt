ghost use Rattle.commit_family.specs.Family.{commit_means, commit_doing};
ghost use Rattle.commit_family.specs.Laws.{commit_command_laws};

use crate::{CommitWords, CommitsTask};
use boot_model::DepId;
use command::{Begun, Command, Query, Told};
use commit_command::{CommitAnswer, CommitCommand};
use obj_store::Put;
use ost_types::{Limits, NoMemory, ObjName, TryCopy, copy_all};
use ref_book::RefBook;
use rely_guarantee::Pin;
use std::alloc::Global;

impl Command for CommitsTask {
    type Words = CommitWords;

    type Answer = CommitAnswer;

    ghost means = { commit_means };

    ghost doing = { commit_doing };

    fn begin(
        alloc: Global,
        refs: &mut RefBook,
        limits: Limits,
        lane: u8,
        _deployments: &[DepId],
        words: &CommitWords,
    ) -> Result<Begun<CommitsTask, CommitAnswer>, NoMemory> {
        refs.make_room(&words.branch)?;
        let seen = refs.get(&words.branch);
        let items = copy_all(alloc, &words.tree)?;
        let work = CommitCommand::new(
            alloc,
            lane,
            words.branch.copy()?,
            seen,
            items,
            words.subject.copy()?,
            words.body.copy()?,
            words.time,
            limits,
        )?;
        Ok(Begun::Runs(CommitsTask { work }))
    }

    fn hear(&mut self, told: Told) -> Told {
        Told {
            objects: self.work.tell(told.objects),
        }
    }

    fn learn(&mut self, _refs: &RefBook, _deployments: &[DepId], _pins: &[Pin]) {}

    fn asks(&self, _actor: u8) -> Option<Query> {
        None
    }

    fn met(&self) -> Option<(ObjName, Put)> {
        self.work.met()
    }

    fn into_answer(self) -> Option<CommitAnswer> {
        self.work.into_answer()
    }

    fn left(&self) -> u128 {
        self.work.left()
    }

    ghost command_laws = { commit_command_laws };
}
