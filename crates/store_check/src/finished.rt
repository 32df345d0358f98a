//! Commits that were found to be there without a mark.
ghost use Rattle.std.specs.Prelude.{◌≡◌, ◌≤◌, ◌↔◌, IsTrue, Some, OnOk, IfOk, IfErr};
ghost use Rattle.fs_trait.specs.View.{View};
ghost use Rattle.fs_trait.specs.Effect.{HasCause, IsQuiet, OfNone};
ghost use Rattle.store_check.specs.Commits.{IsFinished};
ghost use Rattle.store_check.specs.Finished.{AreFinished, IsAdded};

use crate::marks::is_finished;
use fs_trait::{Fs, FsErr};
use ost_types::{Csum, NoMemory};
use std::alloc::Global;
use std::collections::BTreeSet;

/// Whether the commit is there and has no mark. One that was found so is remembered: however many refs name it, it is looked at
/// once.
pub fn is_known_finished<F: Fs>(
    alloc: Global,
    fs: &mut F,
    known: &mut BTreeSet<Csum>,
    commit: &Csum,
) -> Result<bool, FsErr>
    requires known { (v : View) → F.view fs.old ≡ Some v → AreFinished v.now known.old }
    ensures told { (v : View) → F.view fs.old ≡ Some v → IfOk result (λ b. IsTrue b ↔ IsFinished v.now commit.now) }
    ensures known { (v : View) → F.view fs.old ≡ Some v → OnOk result (AreFinished v.now known.new) }
    ensures named { IfErr result OfNone }
    ensures quiet { IsQuiet (F.clock fs.old) (F.clock fs.new) (F.was fs.old) (F.was fs.new) (F.view fs.old) (F.view fs.new) }
    ensures keeps_room { F.spare fs.old ≤ F.spare fs.new }
    ensures cause { HasCause (F.faults fs.old) (F.faults fs.new) result }
{
    if known.contains(commit) {
        return Ok(true);
    }
    if is_finished(alloc, fs, commit)? {
        remember(known, *commit)?;
        Ok(true)
    } else {
        Ok(false)
    }
}

fn remember(known: &mut BTreeSet<Csum>, commit: Csum) -> Result<(), NoMemory>
    ensures { OnOk result (IsAdded known.old known.new commit) }
{
    match known.insert(commit) {
        Ok(_) => Ok(()),
        Err(_) => Err(NoMemory),
    }
}
