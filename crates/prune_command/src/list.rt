//! All objects are listed, a folder a step.
ghost use Rattle.std.specs.Prelude.{◌≡◌, ◌≤◌, Some, IfOk, IfErr};
ghost use Rattle.fs_trait.specs.View.{View};
ghost use Rattle.fs_trait.specs.Effect.{HasCause, IsQuiet, OfNone};
ghost use Rattle.store_check.specs.Listing.{AreBelow};
ghost use Rattle.prune_command.specs.ListSteps.{IsListStepped, ListTells};

use crate::{Known, Marked, Phase};
use fs_trait::{Fs, FsErr, StepResult};
use prune_sweep::Listing;
use std::alloc::Global;
use std::mem;

/// Lists the next folder. Behind the last one the marking comes next.
pub(crate) fn list<F: Fs>(
    alloc: Global,
    fs: &mut F,
    listing: &mut Listing,
    known: &Known,
    depth: u32,
) -> Result<Option<Phase>, FsErr>
    ensures told { (v : View) → F.view fs.old ≡ Some v → AreBelow v.now listing.old.first listing.old.names → IfOk result (ListTells v known.now listing.new) }
    ensures stepped { IfOk result (IsListStepped depth listing.old listing.new) }
    ensures named { IfErr result OfNone }
    ensures quiet { IsQuiet (F.clock fs.old) (F.clock fs.new) (F.was fs.old) (F.was fs.new) (F.view fs.old) (F.view fs.new) }
    ensures keeps_room { F.spare fs.old ≤ F.spare fs.new }
    ensures cause { HasCause (F.faults fs.old) (F.faults fs.new) result }
{
    match listing.step(fs)? {
        StepResult::More => Ok(None),
        StepResult::Done(()) => {
            let names = mem::replace(listing, Listing::new(alloc)).into_names();
            let marked = Marked::new(alloc, names, known, depth)?;
            Ok(Some(Phase::Marking(marked)))
        }
    }
}
