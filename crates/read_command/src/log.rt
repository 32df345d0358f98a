//! `log` reads a commit, its parent, and so on.
ghost use Rattle.std.specs.Prelude.{◌≡◌, ◌≤◌, ◌-◌, ◌^◌, [], length, Some, None, IfOk, IfErr, OnErr};
ghost use Rattle.fs_trait.specs.View.{View};
ghost use Rattle.fs_trait.specs.Effect.{HasCause, IsQuiet, OfNone};
ghost use Rattle.repo_model.specs.Objects.{Stores};
ghost use Rattle.rely_guarantee.specs.Laws.{step_of};
ghost use Rattle.read_command.specs.LogSteps.{IsAsBefore, IsLogStepped, LogKnows, LogTells, Stops, Takes, log_kind, log_left};

use crate::ReadAnswer;
use crate::answer::lacking_of;
use crate::commits::{pin_wants, sum_of_commit};
use fs_trait::{Fs, FsErr};
use ost_forms::Commit;
use ost_types::{Csum, Kind, Limits, NoMemory};
use rely_guarantee::StepKind;
use script::LogRow;
use std::alloc::Global;
use std::mem;
use tree_read::{Looked, look_at_commit};

#[derive(Drop, Debug)]
pub struct Log {
    alloc: Global,
    limits: Limits,
    commit: Csum,
    /// What was read so far,
    rows: Vec<LogRow>,
    /// and the commit that comes next.
    next: Csum,
}

impl Log {
    pub(crate) fn new(alloc: Global, limits: Limits, commit: Csum) -> Log
        ensures alloc { result.alloc ≡ alloc }
        ensures limits { result.limits ≡ limits }
        ensures commit { result.commit ≡ commit }
        ensures rows { result.rows.items ≡ [] }
        ensures next { result.next ≡ commit }
    {
        Log {
            alloc,
            limits,
            commit,
            rows: Vec::new(alloc),
            next: commit,
        }
    }

    /// The first commit is pinned already; each other one is pinned when it is read.
    pub(crate) fn kind(&self) -> StepKind
        ensures { result ≡ step_of (log_kind self.now.rows.items self.now.next) }
    {
        if self.rows.is_empty() {
            StepKind::Quiet
        } else {
            StepKind::Take(pin_wants(&self.next))
        }
    }

    /// At most so many steps go on: there are never more rows than a list may have.
    pub(crate) fn left(&self) -> u128
        ensures { result ≡ log_left self.now.rows.items }
    {
        (1 << 64) - self.rows.len() as u128
    }

    /// Reads the next commit. None where it goes on.
    pub(crate) fn step<F: Fs>(&mut self, fs: &mut F) -> Result<Option<ReadAnswer>, FsErr>
        ensures told { (v : View) → F.view fs.old ≡ Some v → LogKnows (Stores v.now) self.old → IfOk result (LogTells v.now self.old self.new) }
        ensures stepped { IfOk result (IsLogStepped self.old self.new) }
        ensures stays { OnErr result (IsAsBefore self.old self.new) }
        ensures named { (v : View) → F.view fs.old ≡ Some v → IfErr result OfNone }
        ensures quiet { IsQuiet (F.clock fs.old) (F.clock fs.new) (F.was fs.old) (F.was fs.new) (F.view fs.old) (F.view fs.new) }
        ensures keeps_room { F.spare fs.old ≤ F.spare fs.new }
        ensures cause { HasCause (F.faults fs.old) (F.faults fs.new) result }
    {
        sum_of_commit(&self.next);
        match look_at_commit(self.alloc, fs, &self.next, &self.limits)? {
            Looked::Here(commit) => Ok(self.take(commit)?),
            Looked::Absent => Ok(self.stop()?),
            Looked::Damaged => Ok(lacking_of(self.alloc, self.next, Kind::Commit)?),
        }
    }

    /// The commit is the next row.
    fn take(&mut self, commit: Commit) -> Result<Option<ReadAnswer>, NoMemory>
        ensures took { IfOk result (Takes commit self.old self.new) }
        ensures stepped { IfOk result (IsLogStepped self.old self.new) }
        ensures stays { OnErr result (IsAsBefore self.old self.new) }
    {
        let Commit {
            parent,
            subject,
            time,
            ..
        } = commit;
        self.rows.push(LogRow {
            commit: self.next,
            time,
            subject,
        })?;
        match parent {
            Some(parent) => {
                self.next = parent;
                Ok(None)
            }
            None => Ok(Some(ReadAnswer::Log(self.give()))),
        }
    }

    /// The next commit isn't there.
    fn stop(&mut self) -> Result<Option<ReadAnswer>, NoMemory>
        ensures stops { IfOk result (Stops self.old) }
        ensures stays { OnErr result (IsAsBefore self.old self.new) }
    {
        if self.rows.is_empty() {
            lacking_of(self.alloc, self.next, Kind::Commit)
        } else {
            Ok(Some(ReadAnswer::Log(self.give())))
        }
    }

    fn give(&mut self) -> Vec<LogRow>
        ensures { result ≡ self.old.rows }
    {
        mem::replace(&mut self.rows, Vec::new(self.alloc))
    }
}
