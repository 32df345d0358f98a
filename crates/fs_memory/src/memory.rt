ghost use Rattle.std.specs.Prelude.{◌≡◌, ◌≢◌, ◌≤◌, ◌<◌, ◌++◌, ◌∷◌, ◌+◌, ◌-◌, ◌⊎◌, [], ℕ, Bool, Option, length, Some, None, IfOk, IfErr, OnOk, OnErr, IfSome, IfNone, IsOk, IsErrOf, true, false};
ghost use Rattle.std.specs.Vec.{vec_capacity, vec_len};
ghost use Rattle.fs_trait.specs.Count.{last};
ghost use Rattle.fs_trait.specs.Image.{Image};
ghost use Rattle.ost_types.specs.Mode.{IsFolderMode, IsFileMode, IsLinkMode};
ghost use Rattle.fs_trait.specs.View.{View, named, created, moved, extended, file_synced, folder_synced, all_synced};
ghost use Rattle.fs_trait.specs.Effect.{no_new, no_file, no_leaf, no_move, no_folder, no_link, no_rmdir, inode_of, part, one_inode, OfPlacing, OfFinding, OfEmptying, OfNone, HasNames, IsFresh, IsNode, IsListing, Changed, Created, Removed, Answered, Elapses, Ticks, IsQuiet, HasCause, IsCounted, TakesRoom};
ghost use Rattle.fs_trait.specs.declared.types.Value.TheVariants.{Absent, Folder, Link};
ghost use Rattle.fs_trait.specs.declared.types.FsErr.{FsErr};
ghost use Rattle.fs_trait.specs.declared.types.FsErr.TheVariants as error;
ghost use Rattle.memory_record.specs.declared.change.Change.{Change};
ghost use Rattle.memory_record.specs.Changes.{empty_view, IsSound};
ghost use Rattle.memory_record.specs.Crash.{IsCrashOf};
ghost use Rattle.fs_memory.specs.Memory.{record_of, view_now, view_at, clock_of, was_since, room_of, KeepsRecord, KeepsPools, HasNoPlan, CountsNone, CountsCall, planned_call, plan_in, calls_of, faults_of};
ghost use Rattle.fs_memory.specs.Recorded.{IsRecorded, Settles, Obeys, ObeysReading, IsTurn};
ghost use Rattle.memory_record.specs.Laws.{was_now, was_only_now, was_bound, told_tree, told_always};

use crate::calls::{next_call, one_more};
use crate::make::{
    extend_file, link_leaf, make_file, make_folder, make_link, move_leaf, remove_folder,
    remove_leaf, sync_file, sync_folder,
};
use crate::mem_fs::MemFs;
use crate::plan::{FailAt, plan_of};
use crate::read::{list_at, node_at, part_at, read_at, same_at};
use fs_trait::{Fs, FsErr, Node};
use memory_record::{Change, Choice, Past, crashed};
use ost_types::{Bytes, FsPath, Meta, Names, NoMemory, Text};
use places::Pool;
use std::alloc::Global;

/// What is recorded of a call, and what it answers.
#[derive(Drop)]
struct Outcome {
    change: Change,
    answer: Result<(), FsErr>,
}

// None for want of memory.
fn settle(change: Result<Change, FsErr>, done: Option<bool>) -> Option<Outcome>
    ensures none { IfNone result (change ≡ Err error.NoMemory) }
    ensures some { IfSome result (λ o. Settles done change o.change o.answer) }
    ensures wants { IfSome result (λ o. change ≢ Err error.NoMemory) }
{
    match change {
        Ok(change) => match done {
            None => Some(Outcome {
                change,
                answer: Ok(()),
            }),
            Some(true) => Some(Outcome {
                change,
                answer: Err(FsErr::Failed),
            }),
            Some(false) => Some(Outcome {
                change: Change::Nothing,
                answer: Err(FsErr::Failed),
            }),
        },
        Err(FsErr::NoMemory) => None,
        Err(e) => match done {
            None => Some(Outcome {
                change: Change::Nothing,
                answer: Err(e),
            }),
            Some(_) => Some(Outcome {
                change: Change::Nothing,
                answer: Err(FsErr::Failed),
            }),
        },
    }
}

fn raised(faults: u64, answer: &Result<(), FsErr>) -> u64
    ensures cause { HasCause faults result answer.now }
    ensures counts { IsCounted faults result answer.now }
{
    match answer {
        Ok(_) => faults,
        Err(FsErr::Failed) => one_more(faults),
        Err(_) => faults,
    }
}

impl MemFs {
    /// The root folder alone, with owner 0, group 0 and mode 0o040755. No call fails.
    pub fn new(alloc: Global) -> Result<MemFs, NoMemory>
        ensures ok { IsOk result }
        ensures view { IfOk result (λ m. view_now m ≡ empty_view) }
        ensures clock { IfOk result (λ m. clock_of m ≡ 0) }
        ensures faults { IfOk result (λ m. faults_of m ≡ 0) }
        ensures plan { IfOk result HasNoPlan }
    {
        Ok(MemFs {
            alloc,
            past: Past::new(alloc),
            base: 0,
            places: Pool::new(alloc),
            targets: Pool::new(alloc),
            plan: Vec::new(alloc),
            calls: 0,
            faults: 0,
        })
    }

    /// From now on these calls fail. Calls of all kinds but `reserve`, `clock` and `faults` are numbered from 1, since
    /// the file system was made.
    pub fn fail_at(&mut self, plan: Vec<FailAt>)
        ensures plan { plan_in self.new ≡ plan.items }
        ensures changes { KeepsRecord self.old self.new }
        ensures pools { KeepsPools self.old self.new }
        ensures counts { (calls_of self.new ≡ calls_of self.old) × (faults_of self.new ≡ faults_of self.old) }
    {
        self.plan = plan;
    }

    /// The clock.
    pub fn moments(&self) -> u64
        ensures { result ≡ clock_of self.now }
    {
        (self.past.changes.len() - self.base) as u64
    }

    /// What a crash leaves that comes after so many changing calls. It has clock 0 and no plan.
    pub fn image(&self, moment: u64, choice: &Choice) -> Result<MemFs, NoMemory>
        requires { moment ≤ clock_of self.now }
        ensures crash { IfOk result (λ m. IsCrashOf (view_at self.now moment) choice.now.picks.items choice.now.fill (view_now m)) }
        ensures image { IfOk result (λ m. Image (view_at self.now moment) (view_now m).now) }
        ensures clock { IfOk result (λ m. clock_of m ≡ 0) }
        ensures faults { IfOk result (λ m. faults_of m ≡ 0) }
        ensures plan { IfOk result HasNoPlan }
    {
        let end = self.base + moment as usize;
        let past = crashed(self.alloc, &self.past.changes[..end], choice)?;
        let base = past.changes.len();
        Ok(MemFs {
            alloc: self.alloc,
            past,
            base,
            places: Pool::new(self.alloc),
            targets: Pool::new(self.alloc),
            plan: Vec::new(self.alloc),
            calls: 0,
            faults: 0,
        })
    }

    // Counts a changing call, and records what it did. The clock is no more than the record's length, which stays
    // below 2^63.
    fn record(&mut self, change: Result<Change, FsErr>) -> Result<(), FsErr>
        requires { IfOk change (λ c. IsSound (record_of self.old ++ c ∷ [])) }
        ensures recorded { IsRecorded (record_of self.old) (planned_call self.old self.new) change result (record_of self.new) }
        ensures time { Elapses (clock_of self.old) (clock_of self.new) (was_since self.old) (was_since self.new) (Some (view_now self.new)) }
        ensures ticks { Ticks (clock_of self.old) (clock_of self.new) result }
        ensures stops { clock_of self.old ≡ last → Some (view_now self.new) ≡ Some (view_now self.old) }
        ensures cause { HasCause self.old.faults self.new.faults result }
        ensures counts { IsCounted self.old.faults self.new.faults result }
        ensures number { CountsCall self.old self.new }
        ensures base { self.new.base ≡ self.old.base }
        ensures pools { KeepsPools self.old self.new }
        ensures wants { IsErrOf result error.NoMemory → IsErrOf change error.NoMemory ⊎ (vec_capacity self.old.past.changes ≤ vec_len self.old.past.changes) }
        ensures left { vec_capacity self.old.past.changes - vec_len self.old.past.changes ≤ (vec_capacity self.new.past.changes - vec_len self.new.past.changes) + 1 }
    {
        self.calls = next_call(self.calls);
        match settle(change, plan_of(&self.plan, self.calls)) {
            None => Err(FsErr::NoMemory),
            Some(outcome) => {
                self.past.push(outcome.change)?;
                self.faults = raised(self.faults, &outcome.answer);
                outcome.answer
            }
        }
    }

    // Counts a reading call.
    fn turn(&mut self) -> Result<(), FsErr>
        ensures changes { KeepsRecord self.old self.new }
        ensures pools { KeepsPools self.old self.new }
        ensures cause { HasCause self.old.faults self.new.faults result }
        ensures counts { IsCounted self.old.faults self.new.faults result }
        ensures failed { OnErr result (IsErrOf result error.Failed) }
        ensures plan { IsTurn (planned_call self.old self.new) result }
        ensures number { CountsCall self.old self.new }
    {
        self.calls = next_call(self.calls);
        match plan_of(&self.plan, self.calls) {
            None => Ok(()),
            Some(_) => {
                self.faults = raised(self.faults, &Err(FsErr::Failed));
                Err(FsErr::Failed)
            }
        }
    }
}

impl Fs for MemFs {
    ghost view = { λ m. Some (view_now m) };

    ghost clock = { λ m. clock_of m };

    ghost was = { λ m. was_since m };

    ghost faults = { λ m. faults_of m };

    ghost spare = { λ m. room_of m };

    fn mkdir(&mut self, at: &FsPath, meta: &Meta) -> Result<(), FsErr>
        requires { IsFolderMode meta.now.mode }
        ensures effect { (v : View) → Some (view_now self.old) ≡ Some v → Changed (no_new at.now v.now) v (named at.now (Folder meta.now) v) result (Some (view_now self.new)) }
        ensures named { IfErr result OfPlacing }
        ensures time { Elapses (clock_of self.old) (clock_of self.new) (was_since self.old) (was_since self.new) (Some (view_now self.new)) }
        ensures ticks { Ticks (clock_of self.old) (clock_of self.new) result }
        ensures stops { clock_of self.old ≡ last → Some (view_now self.new) ≡ Some (view_now self.old) }
        ensures cause { HasCause (faults_of self.old) (faults_of self.new) result }
        ensures counts { IsCounted (faults_of self.old) (faults_of self.new) result }
        ensures room { TakesRoom false (room_of self.old) (room_of self.new) result }
        ensures number { CountsCall self.old self.new }
        ensures plan { Obeys (planned_call self.old self.new) (no_new at.now (view_now self.old).now) (view_now self.old) (named at.now (Folder meta.now) (view_now self.old)) result (view_now self.new) }
    {
        let change = make_folder(&mut self.places, &self.past, at, meta);
        self.record(change)
    }

    fn create(&mut self, at: &FsPath, meta: &Meta) -> Result<(), FsErr>
        requires { IsFileMode meta.now.mode }
        ensures effect { (v : View) → Some (view_now self.old) ≡ Some v → Created at.now meta.now v result (Some (view_now self.new)) }
        ensures named { IfErr result OfPlacing }
        ensures time { Elapses (clock_of self.old) (clock_of self.new) (was_since self.old) (was_since self.new) (Some (view_now self.new)) }
        ensures ticks { Ticks (clock_of self.old) (clock_of self.new) result }
        ensures stops { clock_of self.old ≡ last → Some (view_now self.new) ≡ Some (view_now self.old) }
        ensures cause { HasCause (faults_of self.old) (faults_of self.new) result }
        ensures counts { IsCounted (faults_of self.old) (faults_of self.new) result }
        ensures room { TakesRoom false (room_of self.old) (room_of self.new) result }
        ensures number { CountsCall self.old self.new }
        ensures plan { (n : ℕ) × IsFresh n (view_now self.old) × Obeys (planned_call self.old self.new) (no_new at.now (view_now self.old).now) (view_now self.old) (created at.now meta.now n (view_now self.old)) result (view_now self.new) }
    {
        let change = make_file(&mut self.places, &self.past, at, meta);
        self.record(change)
    }

    fn append(&mut self, at: &FsPath, bytes: &[u8]) -> Result<(), FsErr>
        ensures effect { (v : View) → Some (view_now self.old) ≡ Some v → Changed (no_file at.now v.now) v (extended (inode_of (v.now.at at.now)) bytes.now v) result (Some (view_now self.new)) }
        ensures named { IfErr result OfFinding }
        ensures time { Elapses (clock_of self.old) (clock_of self.new) (was_since self.old) (was_since self.new) (Some (view_now self.new)) }
        ensures ticks { Ticks (clock_of self.old) (clock_of self.new) result }
        ensures stops { clock_of self.old ≡ last → Some (view_now self.new) ≡ Some (view_now self.old) }
        ensures cause { HasCause (faults_of self.old) (faults_of self.new) result }
        ensures counts { IsCounted (faults_of self.old) (faults_of self.new) result }
        ensures room { TakesRoom false (room_of self.old) (room_of self.new) result }
        ensures number { CountsCall self.old self.new }
        ensures plan { Obeys (planned_call self.old self.new) (no_file at.now (view_now self.old).now) (view_now self.old) (extended (inode_of ((view_now self.old).now.at at.now)) bytes.now (view_now self.old)) result (view_now self.new) }
    {
        let change = extend_file(self.alloc, &mut self.places, &self.past, at, bytes);
        self.record(change)
    }

    fn symlink(&mut self, at: &FsPath, target: &Text, meta: &Meta) -> Result<(), FsErr>
        requires mode { IsLinkMode meta.now.mode }
        requires target { target.now ≢ [] }
        ensures effect { (v : View) → Some (view_now self.old) ≡ Some v → Changed (no_new at.now v.now) v (named at.now (Link meta.now target.now) v) result (Some (view_now self.new)) }
        ensures named { IfErr result OfPlacing }
        ensures time { Elapses (clock_of self.old) (clock_of self.new) (was_since self.old) (was_since self.new) (Some (view_now self.new)) }
        ensures ticks { Ticks (clock_of self.old) (clock_of self.new) result }
        ensures stops { clock_of self.old ≡ last → Some (view_now self.new) ≡ Some (view_now self.old) }
        ensures cause { HasCause (faults_of self.old) (faults_of self.new) result }
        ensures counts { IsCounted (faults_of self.old) (faults_of self.new) result }
        ensures room { TakesRoom false (room_of self.old) (room_of self.new) result }
        ensures number { CountsCall self.old self.new }
        ensures plan { Obeys (planned_call self.old self.new) (no_new at.now (view_now self.old).now) (view_now self.old) (named at.now (Link meta.now target.now) (view_now self.old)) result (view_now self.new) }
    {
        let change = make_link(&mut self.places, &self.past, at, target, meta);
        self.record(change)
    }

    fn link(&mut self, from: &FsPath, to: &FsPath) -> Result<(), FsErr>
        ensures effect { (v : View) → Some (view_now self.old) ≡ Some v → Changed (no_link from.now to.now v.now) v (named to.now (v.now.at from.now) v) result (Some (view_now self.new)) }
        ensures named { IfErr result OfPlacing }
        ensures time { Elapses (clock_of self.old) (clock_of self.new) (was_since self.old) (was_since self.new) (Some (view_now self.new)) }
        ensures ticks { Ticks (clock_of self.old) (clock_of self.new) result }
        ensures stops { clock_of self.old ≡ last → Some (view_now self.new) ≡ Some (view_now self.old) }
        ensures cause { HasCause (faults_of self.old) (faults_of self.new) result }
        ensures counts { IsCounted (faults_of self.old) (faults_of self.new) result }
        ensures room { TakesRoom false (room_of self.old) (room_of self.new) result }
        ensures number { CountsCall self.old self.new }
        ensures plan { Obeys (planned_call self.old self.new) (no_link from.now to.now (view_now self.old).now) (view_now self.old) (named to.now ((view_now self.old).now.at from.now) (view_now self.old)) result (view_now self.new) }
    {
        let change = link_leaf(
            self.alloc,
            &mut self.places,
            &mut self.targets,
            &self.past,
            from,
            to,
        );
        self.record(change)
    }

    fn unlink(&mut self, at: &FsPath) -> Result<(), FsErr>
        ensures effect { (v : View) → Some (view_now self.old) ≡ Some v → Changed (no_leaf at.now v.now) v (named at.now Absent v) result (Some (view_now self.new)) }
        ensures named { IfErr result OfFinding }
        ensures time { Elapses (clock_of self.old) (clock_of self.new) (was_since self.old) (was_since self.new) (Some (view_now self.new)) }
        ensures ticks { Ticks (clock_of self.old) (clock_of self.new) result }
        ensures stops { clock_of self.old ≡ last → Some (view_now self.new) ≡ Some (view_now self.old) }
        ensures cause { HasCause (faults_of self.old) (faults_of self.new) result }
        ensures counts { IsCounted (faults_of self.old) (faults_of self.new) result }
        ensures room { TakesRoom true (room_of self.old) (room_of self.new) result }
        ensures number { CountsCall self.old self.new }
        ensures plan { Obeys (planned_call self.old self.new) (no_leaf at.now (view_now self.old).now) (view_now self.old) (named at.now Absent (view_now self.old)) result (view_now self.new) }
    {
        let change = remove_leaf(&mut self.places, &self.past, at);
        self.record(change)
    }

    fn rmdir(&mut self, at: &FsPath) -> Result<(), FsErr>
        ensures effect { (v : View) → Some (view_now self.old) ≡ Some v → Removed at.now v result (Some (view_now self.new)) }
        ensures named { IfErr result OfEmptying }
        ensures time { Elapses (clock_of self.old) (clock_of self.new) (was_since self.old) (was_since self.new) (Some (view_now self.new)) }
        ensures ticks { Ticks (clock_of self.old) (clock_of self.new) result }
        ensures stops { clock_of self.old ≡ last → Some (view_now self.new) ≡ Some (view_now self.old) }
        ensures cause { HasCause (faults_of self.old) (faults_of self.new) result }
        ensures counts { IsCounted (faults_of self.old) (faults_of self.new) result }
        ensures room { TakesRoom true (room_of self.old) (room_of self.new) result }
        ensures number { CountsCall self.old self.new }
        ensures plan { (b : Bool) × HasNames b at.now (view_now self.old).now × Obeys (planned_call self.old self.new) (no_rmdir b at.now (view_now self.old).now) (view_now self.old) (named at.now Absent (view_now self.old)) result (view_now self.new) }
    {
        let change = remove_folder(&mut self.places, &self.past, at);
        self.record(change)
    }

    fn rename(&mut self, from: &FsPath, to: &FsPath) -> Result<(), FsErr>
        requires { (v : View) → Some (view_now self.old) ≡ Some v → one_inode (v.now.at from.now) (v.now.at to.now) ≡ false }
        ensures effect { (v : View) → Some (view_now self.old) ≡ Some v → Changed (no_move from.now to.now v.now) v (moved from.now to.now v) result (Some (view_now self.new)) }
        ensures named { IfErr result OfPlacing }
        ensures time { Elapses (clock_of self.old) (clock_of self.new) (was_since self.old) (was_since self.new) (Some (view_now self.new)) }
        ensures ticks { Ticks (clock_of self.old) (clock_of self.new) result }
        ensures stops { clock_of self.old ≡ last → Some (view_now self.new) ≡ Some (view_now self.old) }
        ensures cause { HasCause (faults_of self.old) (faults_of self.new) result }
        ensures counts { IsCounted (faults_of self.old) (faults_of self.new) result }
        ensures room { TakesRoom true (room_of self.old) (room_of self.new) result }
        ensures number { CountsCall self.old self.new }
        ensures plan { Obeys (planned_call self.old self.new) (no_move from.now to.now (view_now self.old).now) (view_now self.old) (moved from.now to.now (view_now self.old)) result (view_now self.new) }
    {
        let change = move_leaf(&mut self.places, &mut self.targets, &self.past, from, to);
        self.record(change)
    }

    fn sync_file(&mut self, at: &FsPath) -> Result<(), FsErr>
        ensures effect { (v : View) → Some (view_now self.old) ≡ Some v → Changed (no_file at.now v.now) v (file_synced (inode_of (v.now.at at.now)) v) result (Some (view_now self.new)) }
        ensures named { IfErr result OfFinding }
        ensures time { Elapses (clock_of self.old) (clock_of self.new) (was_since self.old) (was_since self.new) (Some (view_now self.new)) }
        ensures ticks { Ticks (clock_of self.old) (clock_of self.new) result }
        ensures stops { clock_of self.old ≡ last → Some (view_now self.new) ≡ Some (view_now self.old) }
        ensures cause { HasCause (faults_of self.old) (faults_of self.new) result }
        ensures counts { IsCounted (faults_of self.old) (faults_of self.new) result }
        ensures room { TakesRoom true (room_of self.old) (room_of self.new) result }
        ensures number { CountsCall self.old self.new }
        ensures plan { Obeys (planned_call self.old self.new) (no_file at.now (view_now self.old).now) (view_now self.old) (file_synced (inode_of ((view_now self.old).now.at at.now)) (view_now self.old)) result (view_now self.new) }
    {
        let change = sync_file(&mut self.places, &self.past, at);
        self.record(change)
    }

    fn sync_dir(&mut self, at: &FsPath) -> Result<(), FsErr>
        ensures effect { (v : View) → Some (view_now self.old) ≡ Some v → Changed (no_folder at.now v.now) v (folder_synced at.now v) result (Some (view_now self.new)) }
        ensures named { IfErr result OfFinding }
        ensures time { Elapses (clock_of self.old) (clock_of self.new) (was_since self.old) (was_since self.new) (Some (view_now self.new)) }
        ensures ticks { Ticks (clock_of self.old) (clock_of self.new) result }
        ensures stops { clock_of self.old ≡ last → Some (view_now self.new) ≡ Some (view_now self.old) }
        ensures cause { HasCause (faults_of self.old) (faults_of self.new) result }
        ensures counts { IsCounted (faults_of self.old) (faults_of self.new) result }
        ensures room { TakesRoom true (room_of self.old) (room_of self.new) result }
        ensures number { CountsCall self.old self.new }
        ensures plan { Obeys (planned_call self.old self.new) (no_folder at.now (view_now self.old).now) (view_now self.old) (folder_synced at.now (view_now self.old)) result (view_now self.new) }
    {
        let change = sync_folder(&mut self.places, &self.past, at);
        self.record(change)
    }

    fn sync_all(&mut self) -> Result<(), FsErr>
        ensures effect { (v : View) → Some (view_now self.old) ≡ Some v → Changed None v (all_synced v) result (Some (view_now self.new)) }
        ensures named { IfErr result OfNone }
        ensures time { Elapses (clock_of self.old) (clock_of self.new) (was_since self.old) (was_since self.new) (Some (view_now self.new)) }
        ensures ticks { Ticks (clock_of self.old) (clock_of self.new) result }
        ensures stops { clock_of self.old ≡ last → Some (view_now self.new) ≡ Some (view_now self.old) }
        ensures cause { HasCause (faults_of self.old) (faults_of self.new) result }
        ensures counts { IsCounted (faults_of self.old) (faults_of self.new) result }
        ensures room { TakesRoom true (room_of self.old) (room_of self.new) result }
        ensures number { CountsCall self.old self.new }
        ensures plan { Obeys (planned_call self.old self.new) None (view_now self.old) (all_synced (view_now self.old)) result (view_now self.new) }
    {
        self.record(Ok(Change::SyncAll))
    }

    fn reserve(&mut self, calls: u64) -> Result<(), FsErr>
        ensures ok { OnOk result (calls ≤ room_of self.new) }
        ensures keeps_room { room_of self.old ≤ room_of self.new }
        ensures err { IfErr result (λ e. e ≡ error.NoMemory) }
        ensures faults { faults_of self.new ≡ faults_of self.old }
        ensures quiet { IsQuiet (clock_of self.old) (clock_of self.new) (was_since self.old) (was_since self.new) (Some (view_now self.old)) (Some (view_now self.new)) }
        ensures plan { CountsNone self.old self.new }
    {
        self.places.fill(calls)?;
        self.targets.fill(calls)?;
        self.past.reserve(calls as usize)?;
        Ok(())
    }

    fn stat(&mut self, at: &FsPath) -> Result<Option<Node>, FsErr>
        ensures answer { (v : View) → Some (view_now self.old) ≡ Some v → Answered None (IsNode v.now (v.now.at at.now)) result }
        ensures named { IfErr result OfNone }
        ensures quiet { IsQuiet (clock_of self.old) (clock_of self.new) (was_since self.old) (was_since self.new) (Some (view_now self.old)) (Some (view_now self.new)) }
        ensures keeps_room { (room_of self.old) ≤ (room_of self.new) }
        ensures cause { HasCause (faults_of self.old) (faults_of self.new) result }
        ensures counts { IsCounted (faults_of self.old) (faults_of self.new) result }
        ensures number { CountsCall self.old self.new }
        ensures plan { ObeysReading (planned_call self.old self.new) result }
    {
        self.turn()?;
        node_at(self.alloc, &self.past, at)
    }

    fn read(&mut self, at: &FsPath) -> Result<Bytes, FsErr>
        ensures answer { (v : View) → Some (view_now self.old) ≡ Some v → Answered (no_file at.now v.now) (λ b. b ≡ v.now.bytes (inode_of (v.now.at at.now))) result }
        ensures named { IfErr result OfFinding }
        ensures quiet { IsQuiet (clock_of self.old) (clock_of self.new) (was_since self.old) (was_since self.new) (Some (view_now self.old)) (Some (view_now self.new)) }
        ensures keeps_room { (room_of self.old) ≤ (room_of self.new) }
        ensures cause { HasCause (faults_of self.old) (faults_of self.new) result }
        ensures counts { IsCounted (faults_of self.old) (faults_of self.new) result }
        ensures number { CountsCall self.old self.new }
        ensures plan { ObeysReading (planned_call self.old self.new) result }
    {
        self.turn()?;
        read_at(self.alloc, &self.past, at)
    }

    fn read_part(&mut self, at: &FsPath, from: u64, max: u32) -> Result<Bytes, FsErr>
        requires { 1 ≤ max }
        ensures answer { (v : View) → Some (view_now self.old) ≡ Some v → Answered (no_file at.now v.now) (λ b. b ≡ part from max (v.now.bytes (inode_of (v.now.at at.now)))) result }
        ensures named { IfErr result OfFinding }
        ensures quiet { IsQuiet (clock_of self.old) (clock_of self.new) (was_since self.old) (was_since self.new) (Some (view_now self.old)) (Some (view_now self.new)) }
        ensures keeps_room { (room_of self.old) ≤ (room_of self.new) }
        ensures cause { HasCause (faults_of self.old) (faults_of self.new) result }
        ensures counts { IsCounted (faults_of self.old) (faults_of self.new) result }
        ensures number { CountsCall self.old self.new }
        ensures plan { ObeysReading (planned_call self.old self.new) result }
    {
        self.turn()?;
        part_at(self.alloc, &self.past, at, from, max)
    }

    fn list(&mut self, at: &FsPath) -> Result<Names, FsErr>
        ensures answer { (v : View) → Some (view_now self.old) ≡ Some v → Answered (no_folder at.now v.now) (IsListing v.now at.now) result }
        ensures named { IfErr result OfFinding }
        ensures quiet { IsQuiet (clock_of self.old) (clock_of self.new) (was_since self.old) (was_since self.new) (Some (view_now self.old)) (Some (view_now self.new)) }
        ensures keeps_room { (room_of self.old) ≤ (room_of self.new) }
        ensures cause { HasCause (faults_of self.old) (faults_of self.new) result }
        ensures counts { IsCounted (faults_of self.old) (faults_of self.new) result }
        ensures number { CountsCall self.old self.new }
        ensures plan { ObeysReading (planned_call self.old self.new) result }
    {
        self.turn()?;
        list_at(self.alloc, &self.past, at)
    }

    fn same(&mut self, a: &FsPath, b: &FsPath) -> Result<bool, FsErr>
        ensures answer { (v : View) → Some (view_now self.old) ≡ Some v → Answered None (λ x. x ≡ one_inode (v.now.at a.now) (v.now.at b.now)) result }
        ensures named { IfErr result OfNone }
        ensures quiet { IsQuiet (clock_of self.old) (clock_of self.new) (was_since self.old) (was_since self.new) (Some (view_now self.old)) (Some (view_now self.new)) }
        ensures keeps_room { (room_of self.old) ≤ (room_of self.new) }
        ensures cause { HasCause (faults_of self.old) (faults_of self.new) result }
        ensures counts { IsCounted (faults_of self.old) (faults_of self.new) result }
        ensures number { CountsCall self.old self.new }
        ensures plan { ObeysReading (planned_call self.old self.new) result }
    {
        self.turn()?;
        same_at(self.alloc, &self.past, a, b)
    }

    fn clock(&self) -> u64 {
        self.moments()
    }

    fn faults(&self) -> u64 {
        self.faults
    }

    ghost counts_now = { λ m t v le is. was_now m.base (record_of m) t v m.begun le is };

    ghost only_now = { λ m t v le was. was_only_now m.base (record_of m) t v m.begun le was };

    ghost bound = { λ m t v was. was_bound m.base (record_of m) t v was };

    ghost tree = { λ m v is. told_tree m.base (record_of m) v m.begun m.sound is };

    ghost told = { λ m n v is. told_always (record_of n) };
}
