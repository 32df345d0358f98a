//! Objects that go, one a step.
ghost use Rattle.std.specs.Prelude.{◌≡◌, ◌≤◌, ◌<◌, ◌+◌, ◌^◌, length, map, Some, IfErr, IsErrOf, OnOk};
ghost use Rattle.fs_trait.specs.declared.types.FsErr.TheVariants as error;
ghost use Rattle.fs_trait.specs.View.{View};
ghost use Rattle.fs_trait.specs.Effect.{Elapses, HasCause, Next, OfFinding, OfNone};
ghost use Rattle.repo_model.specs.Objects.{path_of};
ghost use Rattle.prune_sweep.specs.declared.part.Part.TheVariants as part;
ghost use Rattle.prune_sweep.specs.Sweeping.{IsSoFar, IsStepped, KeepsRoom, calls_of};
ghost use Rattle.prune_sweep.specs.Steps.{Does};

mod steps;

use crate::part::Part;
use fs_trait::{Fs, FsErr, StepResult};
use ost_types::{FsPath, ObjName};
use std::marker::Model;

/// The task that takes objects from a store, and marks with them, a step at a time. The commits go first, and only once that outlasts
/// a crash what they name; so wherever a crash leaves a commit, what it names is there. Marks go last.
///
/// From its first step on it reads nothing and takes no memory.
#[derive(Drop, Debug)]
pub struct Sweep {
    removed: Vec<ObjName>,
    // where they stand
    paths: Vec<FsPath>,
    // so many of them are commits, which come first
    commits: usize,
    marks: Vec<FsPath>,
    kept: usize,
    gone: usize,
    unmarked: usize,
    part: Part,
}

impl Model for Sweep {
    ghost use Rattle.std.specs.Prelude.{◌≡◌, ◌≤◌, length, map};
    ghost use Rattle.repo_model.specs.Objects.{path_of};
    ghost use Rattle.prune_sweep.specs.Sweeping.{IsSoFar, Sweeping};

    ghost Value = { Sweeping };

    ghost view = { λ a. record { removed = a.removed.items; commits = a.commits; marks = a.marks.items; kept = a.kept; gone = a.gone; unmarked = a.unmarked; part = a.part } };

    ghost invariant = { λ a. (a.paths.items ≡ map path_of a.removed.items) × IsSoFar (record { removed = a.removed.items; commits = a.commits; marks = a.marks.items; kept = a.kept; gone = a.gone; unmarked = a.unmarked; part = a.part }) };
}

impl Sweep {
    pub(crate) fn new(
        removed: Vec<ObjName>,
        paths: Vec<FsPath>,
        commits: usize,
        marks: Vec<FsPath>,
        kept: usize,
    ) -> Sweep
        requires paths { paths.items ≡ map path_of removed.items }
        requires commits { commits ≤ length removed.items }
        requires few { length removed.items + length marks.items < 2 ^ 63 }
        ensures { result ≡ record { removed = removed.items; commits = commits; marks = marks.items; kept = kept; gone = 0; unmarked = 0; part = part.Begin } }
    {
        Sweep {
            removed,
            paths,
            commits,
            marks,
            kept,
            gone: 0,
            unmarked: 0,
            part: Part::Begin,
        }
    }

    /// What the next step does.
    pub fn part(&self) -> Part
        ensures part { result ≡ self.now.part }
        ensures so_far { IsSoFar self.now }
    {
        self.part
    }

    /// What goes, in this order: the commits first.
    pub fn removed(&self) -> &[ObjName]
        ensures { result.now ≡ self.now.removed }
    {
        self.removed.as_slice()
    }

    /// How many objects stay.
    pub fn kept(&self) -> usize
        ensures { result ≡ self.now.kept }
    {
        self.kept
    }

    /// How many calls that change something are left.
    pub fn calls(&self) -> u64
        ensures { result ≡ calls_of self.now }
    {
        let objects = (self.removed.len() - self.gone) as u64;
        let marks = (self.marks.len() - self.unmarked) as u64;
        match self.part {
            Part::Begin | Part::Commit | Part::Barrier => objects + marks + 2,
            Part::Object | Part::Mark | Part::End => objects + marks + 1,
            Part::Over => 0,
        }
    }

    /// Does the next step: at most one changing call, and no other. After an error nothing is otherwise.
    pub fn step<F: Fs>(&mut self, fs: &mut F) -> Result<StepResult<()>, FsErr>
        ensures effect { (v : View) → F.view fs.old ≡ Some v → Does self.old v result (F.view fs.new) }
        ensures stepped { IsStepped self.old result self.new }
        ensures named { IfErr result OfFinding }
        ensures refused { (self.old.part ≡ part.Begin → IfErr result OfNone) × (self.old.part ≡ part.Mark → IsErrOf result error.Missing → ⊥) }
        ensures time { Elapses (F.clock fs.old) (F.clock fs.new) (F.was fs.old) (F.was fs.new) (F.view fs.new) }
        ensures ticks { self.old.part ≡ part.End → OnOk result (Next (F.clock fs.old) (F.clock fs.new)) }
        ensures cause { HasCause (F.faults fs.old) (F.faults fs.new) result }
        ensures room { KeepsRoom self.old self.new (F.spare fs.old) (F.spare fs.new) result }
    {
        match self.part {
            Part::Begin => self.begin(fs),
            Part::Commit | Part::Object => self.unlink_object(fs),
            Part::Barrier => self.sync_commits(fs),
            Part::Mark => self.unlink_mark(fs),
            Part::End => self.end(fs),
            Part::Over => Ok(StepResult::Done(())),
        }
    }

    /// What was removed.
    pub fn into_removed(self) -> Vec<ObjName>
        ensures { result.items ≡ self.removed }
    {
        self.removed
    }
}
