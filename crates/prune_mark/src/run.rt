//! All that a prune keeps is found.
ghost use Rattle.std.specs.Prelude.{◌≡◌, ◌≤◌, Some};
ghost use Rattle.fs_trait.specs.View.{View};
ghost use Rattle.fs_trait.specs.Effect.{IsQuiet};
ghost use Rattle.store_check.specs.Listing.{AreAll};
ghost use Rattle.prune_mark.specs.Reads.{HasCauseOf, IsFailed};
ghost use Rattle.prune_mark.specs.Marking.{RunTells};

use crate::fault::MarkFault;
use crate::marking::Marking;
use fs_trait::{Fs, StepResult};
use ost_types::{Limits, ObjName};
use std::alloc::Global;

/// Marks exactly the objects of the store that are reachable from the roots, where `depth` parents of each are followed. The names
/// are those of `list_objects`. Nothing is written.
pub fn mark<F: Fs>(
    alloc: Global,
    fs: &mut F,
    names: Vec<ObjName>,
    roots: &[ObjName],
    depth: u32,
    limits: &Limits,
) -> Result<Marking, MarkFault>
    ensures told { (v : View) → F.view fs.old ≡ Some v → AreAll v.now names.items → RunTells v.now limits.now.content names.items roots.now depth result }
    ensures quiet { IsQuiet (F.clock fs.old) (F.clock fs.new) (F.was fs.old) (F.was fs.new) (F.view fs.old) (F.view fs.new) }
    ensures keeps_room { F.spare fs.old ≤ F.spare fs.new }
    ensures cause { HasCauseOf (F.faults fs.old) (F.faults fs.new) (IsFailed result) }
{
    let mut marking = Marking::new(alloc, names, roots, depth)?;
    'steps: loop {
        match marking.step(fs, limits)? {
            StepResult::More => {}
            StepResult::Done(()) => return Ok(marking),
        }
    }
}
