ghost use Rattle.std.specs.Prelude.{◌≡◌, ◌≤◌, ◌<◌, ◌+◌, ◌^◌, Some, IfOk, IfErr, OnOk, length};
ghost use Rattle.fs_trait.specs.View.{View};
ghost use Rattle.fs_trait.specs.Image.{reads};
ghost use Rattle.fs_trait.specs.Effect.{HasCause, IsQuiet, OfFinding, OfNone};
ghost use Rattle.file_copy.specs.declared.comparing.ComparePhase.TheVariants as phase;
ghost use Rattle.file_copy.specs.Pieces.{size_of};
ghost use Rattle.file_copy.specs.Comparing.{Agree, Answers, IsCompared, IsStepped, IsWhole, IsWithin, Needs, OnDone, OnMore, begun, common, left, looked, turn_of};

use crate::pieces::{find_size, piece_end, read_piece};
use fs_trait::{Fs, FsErr, StepResult};
use ost_types::FsPath;
use std::marker::Model;

/// What the next step of a comparison does.
#[derive(Clone, Copy, Debug, PartialEq, Eq)]
pub enum ComparePhase {
    /// Looks how long both files are.
    Look,
    /// Compares a piece of each.
    Compare {
        /// The number of the bytes of each.
        size: u64,
        /// So many of them are the same.
        at: u64,
    },
    /// Nothing: this is the answer.
    Ended(bool),
}

/// The task that tells whether two paths show regular files with the same bytes, a piece of each a step. It ends at the first piece
/// that differs, and at once where one is longer than the other.
#[derive(Drop, Debug)]
pub struct FileCompare {
    one: FsPath,
    other: FsPath,
    phase: ComparePhase,
}

impl Model for FileCompare {
    ghost use Rattle.file_copy.specs.Comparing.{Comparing, IsWithin};

    ghost Value = { Comparing };

    ghost view = { λ a. record { one = a.one; other = a.other; phase = a.phase } };

    ghost invariant = { λ a. IsWithin a.phase };
}

impl FileCompare {
    pub fn new(one: FsPath, other: FsPath) -> FileCompare
        ensures { result ≡ begun one other }
    {
        FileCompare {
            one,
            other,
            phase: ComparePhase::Look,
        }
    }

    /// At most so many steps are left; each byte that wasn't compared counts as one.
    pub fn left(&self) -> u128
        ensures value { result ≡ left self.now }
        ensures small { result ≤ 2 ^ 64 }
    {
        match self.phase {
            ComparePhase::Look => 1 + u64::MAX as u128,
            ComparePhase::Compare { size, at } => (size - at) as u128,
            ComparePhase::Ended(_) => 0,
        }
    }

    /// What the next step does.
    pub fn phase(&self) -> ComparePhase
        ensures { result ≡ self.now.phase }
    {
        self.phase
    }

    /// Does the next step: at most two reading calls. After an error the task is unchanged, so that the step may be tried again.
    /// `Missing` comes where a file ends early.
    pub fn step<F: Fs>(&mut self, fs: &mut F) -> Result<StepResult<bool>, FsErr>
        requires { (v : View) → F.view fs.old ≡ Some v → Needs self.old v.now }
        ensures answer { (v : View) → F.view fs.old ≡ Some v → OnDone result (Answers v.now self.old) }
        ensures after { (v : View) → F.view fs.old ≡ Some v → OnOk result (Needs self.new v.now) }
        ensures pieces { (v : View) → F.view fs.old ≡ Some v → OnOk result (IsWhole self.old.phase self.new.phase) }
        ensures fails { (v : View) → F.view fs.old ≡ Some v → IfErr result OfNone }
        ensures named { IfErr result OfFinding }
        ensures stepped { IsStepped self.old result self.new }
        ensures falls { OnMore result (left self.new < left self.old) }
        ensures quiet { IsQuiet (F.clock fs.old) (F.clock fs.new) (F.was fs.old) (F.was fs.new) (F.view fs.old) (F.view fs.new) }
        ensures keeps_room { F.spare fs.old ≤ F.spare fs.new }
        ensures cause { HasCause (F.faults fs.old) (F.faults fs.new) result }
    {
        match self.phase {
            ComparePhase::Look => self.look(fs),
            ComparePhase::Compare { size, at } => self.compare(fs, size, at),
            ComparePhase::Ended(same) => Ok(StepResult::Done(same)),
        }
    }

    // looks how long both files are
    fn look<F: Fs>(&mut self, fs: &mut F) -> Result<StepResult<bool>, FsErr>
        requires { self.old.phase ≡ phase.Look }
        ensures answer { (v : View) → F.view fs.old ≡ Some v → OnDone result (Answers v.now self.old) }
        ensures after { (v : View) → F.view fs.old ≡ Some v → OnOk result (Needs self.new v.now) }
        ensures pieces { (v : View) → F.view fs.old ≡ Some v → OnOk result (IsWhole self.old.phase self.new.phase) }
        ensures fails { (v : View) → F.view fs.old ≡ Some v → IfErr result OfNone }
        ensures named { IfErr result OfFinding }
        ensures stepped { IsStepped self.old result self.new }
        ensures falls { OnMore result (left self.new < left self.old) }
        ensures quiet { IsQuiet (F.clock fs.old) (F.clock fs.new) (F.was fs.old) (F.was fs.new) (F.view fs.old) (F.view fs.new) }
        ensures keeps_room { F.spare fs.old ≤ F.spare fs.new }
        ensures cause { HasCause (F.faults fs.old) (F.faults fs.new) result }
    {
        let size = common_size(fs, &self.one, &self.other)?;
        Ok(self.go(looked(size)))
    }

    // compares a piece of each
    fn compare<F: Fs>(&mut self, fs: &mut F, size: u64, at: u64) -> Result<StepResult<bool>, FsErr>
        requires phase { self.old.phase ≡ phase.Compare size at }
        requires within { at < size }
        requires needs { (v : View) → F.view fs.old ≡ Some v → Agree v.now self.old.one self.old.other size at }
        ensures answer { (v : View) → F.view fs.old ≡ Some v → OnDone result (Answers v.now self.old) }
        ensures after { (v : View) → F.view fs.old ≡ Some v → OnOk result (Needs self.new v.now) }
        ensures pieces { (v : View) → F.view fs.old ≡ Some v → OnOk result (IsWhole self.old.phase self.new.phase) }
        ensures fails { (v : View) → F.view fs.old ≡ Some v → IfErr result OfNone }
        ensures named { IfErr result OfFinding }
        ensures stepped { IsStepped self.old result self.new }
        ensures falls { OnMore result (left self.new < left self.old) }
        ensures quiet { IsQuiet (F.clock fs.old) (F.clock fs.new) (F.was fs.old) (F.was fs.new) (F.view fs.old) (F.view fs.new) }
        ensures keeps_room { F.spare fs.old ≤ F.spare fs.new }
        ensures cause { HasCause (F.faults fs.old) (F.faults fs.new) result }
    {
        let end = piece_end(size, at);
        let first = read_piece(fs, &self.one, at, end)?;
        let second = read_piece(fs, &self.other, at, end)?;
        Ok(self.go(compared(size, at, first.as_slice(), second.as_slice())))
    }

    // this comes next
    fn go(&mut self, phase: ComparePhase) -> StepResult<bool>
        requires { IsWithin phase }
        ensures turn { result ≡ turn_of phase }
        ensures task { self.new ≡ record self.old { phase = phase } }
    {
        self.phase = phase;
        match phase {
            ComparePhase::Ended(same) => StepResult::Done(same),
            _ => StepResult::More,
        }
    }
}

/// The number of the bytes of both files; None where one is no regular file, or longer than the other.
fn common_size<F: Fs>(fs: &mut F, one: &FsPath, other: &FsPath) -> Result<Option<u64>, FsErr>
    ensures told { (v : View) → F.view fs.old ≡ Some v → IfOk result (λ o. o ≡ common (size_of (reads v.now one.now)) (size_of (reads v.now other.now))) }
    ensures named { IfErr result OfNone }
    ensures quiet { IsQuiet (F.clock fs.old) (F.clock fs.new) (F.was fs.old) (F.was fs.new) (F.view fs.old) (F.view fs.new) }
    ensures keeps_room { F.spare fs.old ≤ F.spare fs.new }
    ensures cause { HasCause (F.faults fs.old) (F.faults fs.new) result }
{
    let first = find_size(fs, one)?;
    let second = find_size(fs, other)?;
    Ok(common(first, second))
}

fn common(first: Option<u64>, second: Option<u64>) -> Option<u64>
    ensures { result ≡ common first second }
{
    match (first, second) {
        (Some(first), Some(second)) if first == second => Some(first),
        _ => None,
    }
}

/// What comes next where both files have so many bytes, or not as many.
fn looked(size: Option<u64>) -> ComparePhase
    ensures value { result ≡ looked size }
    ensures within { IsWithin result }
{
    match size {
        None => ComparePhase::Ended(false),
        Some(0) => ComparePhase::Ended(true),
        Some(size) => ComparePhase::Compare { size, at: 0 },
    }
}

/// What comes next where these pieces stand at a place.
fn compared(size: u64, at: u64, first: &[u8], second: &[u8]) -> ComparePhase
    requires fits { at + length first.now ≤ size }
    requires some { 0 < length first.now }
    ensures value { IsCompared size at first.now second.now result }
    ensures within { IsWithin result }
{
    if first != second {
        return ComparePhase::Ended(false);
    }
    let at = at + first.len() as u64;
    if at < size {
        ComparePhase::Compare { size, at }
    } else {
        ComparePhase::Ended(true)
    }
}
