ghost use Rattle.std.specs.Prelude.{◌≡◌, ◌<◌, ◌≤◌, ◌==◌, Some, None, count_by, length};
ghost use Rattle.repo_layout.specs.RefName.{parts_of};
ghost use Rattle.ref_store.specs.declared.phase.Phase.TheVariants as phase;
ghost use Rattle.ref_store.specs.Change.{left, left_put, left_way, need_in};

mod steps;
mod tells;

use crate::phase::Phase;
use fs_trait::Need;
use ost_types::{Csum, FsPath};
use repo_layout::RefName;
use staged_file::Phase as FilePhase;
use std::alloc::Global;
use std::marker::Model;

// how many names the path of the folder of all refs has
const HEADS: usize = 4;

/// The task that changes one ref, a step at a time. It compares the ref's value with the one that it was to have, and tells a
/// ref that can't stand beside it. Then it makes room for the ref's file, puts it there in one call, and makes sure that it
/// outlasts a crash; or it takes the file away. A crash at any moment leaves the ref with the value before or the one after.
#[derive(Drop, Debug)]
pub struct RefTask {
    alloc: Global,
    actor: u8,
    name: RefName,
    seen: Option<Csum>,
    // None: the ref is removed
    value: Option<Csum>,
    // that of the ref's file, once it was taken away
    folder: Option<FsPath>,
    phase: Phase,
}

impl Model for RefTask {
    ghost use Rattle.std.specs.Prelude.{◌<◌};
    ghost use Rattle.ref_store.specs.Change.{Change, IsMade, keeps_folder};

    ghost Value = { Change };

    ghost view = { λ a. record { actor = a.actor; name = a.name; seen = a.seen; value = a.value; phase = a.phase } };

    ghost invariant = { λ a. (a.actor < 16) × keeps_folder a.phase a.name a.folder × IsMade (record { actor = a.actor; name = a.name; seen = a.seen; value = a.value; phase = a.phase }) };
}

impl RefTask {
    /// Lets the ref name a commit. It must have the value `seen` so far, None where there is no such ref.
    pub fn set(alloc: Global, actor: u8, name: RefName, seen: Option<Csum>, commit: Csum) -> RefTask
        requires { actor < 16 }
        ensures { result ≡ record { actor = actor; name = name; seen = seen; value = Some commit; phase = phase.Look } }
    {
        RefTask {
            alloc,
            actor,
            name,
            seen,
            value: Some(commit),
            folder: None,
            phase: Phase::Look,
        }
    }

    /// Removes the ref. It must name the commit `seen` so far.
    pub fn remove(alloc: Global, actor: u8, name: RefName, seen: Csum) -> RefTask
        requires { actor < 16 }
        ensures { result ≡ record { actor = actor; name = name; seen = Some seen; value = None; phase = phase.Look } }
    {
        RefTask {
            alloc,
            actor,
            name,
            seen: Some(seen),
            value: None,
            folder: None,
            phase: Phase::Look,
        }
    }

    /// The lock under which the next step must stand.
    pub fn needs(&self) -> Need
        ensures { result ≡ need_in self.now.phase }
    {
        match self.phase {
            Phase::Ended => Need::Nothing,
            _ => Need::RefLock,
        }
    }

    /// At most so many steps are left.
    pub fn left(&self) -> u128
        ensures { result ≡ left self.now }
    {
        let left_way = left_way(&self.name);
        match &self.phase {
            Phase::Look => (1 << 127) + 2 + left_way,
            Phase::Clear(clearing) => clearing.left() + left_way,
            Phase::Walk(way) => { if way.is_over() { 8 } else { way.left() + 9 } }
            Phase::Put(file) => left_put(file.phase()),
            Phase::Unlink => 2,
            Phase::SyncFolder => 1,
            Phase::Ended => 0,
        }
    }
}

fn left_way(name: &RefName) -> u128
    ensures value { result ≡ left_way name.now }
    ensures small { result < 1000 }
{
    2 * (HEADS + count_parts(name)) as u128 + 9
}

fn count_parts(name: &RefName) -> usize
    ensures value { result ≡ length (parts_of name.now) }
    ensures few { result ≤ 12 }
{
    count_slashes(name.as_slice()) + 1
}

fn count_slashes(text: &[u8]) -> usize
    ensures { result ≡ count_by (λ b. b == 47) text.now }
{
    text.iter().filter(|byte| **byte == b'/').count()
}

fn left_put(phase: FilePhase) -> u128
    ensures { result ≡ left_put phase }
{
    match phase {
        FilePhase::Clear => 7,
        FilePhase::Create => 6,
        FilePhase::Append => 5,
        FilePhase::SyncFile => 4,
        FilePhase::Look => 3,
        FilePhase::Replace => 2,
        FilePhase::SyncFolder => 1,
        FilePhase::Ended => 0,
    }
}
