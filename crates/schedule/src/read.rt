ghost use Rattle.std.specs.Prelude.{◌≡◌, ◌⊎◌, List, map, IfOk, MatchOption, MatchResult};
ghost use Rattle.schedule.specs.Schedule.{AreItems, IsSchedule};
ghost use Rattle.schedule.specs.declared.turns.Turns.{Turns};
ghost use Rattle.schedule.specs.declared.fault.ScheduleFault.TheVariants as fault;

use crate::cut::cut;
use crate::item::read_item;
use crate::{ScheduleFault, Turns};
use ost_types::NoMemory;
use std::alloc::Global;

/// The schedule that a text is: items joined by `,`, each an actor, which acts once, or an actor, `*` and how often it acts.
/// Numbers are decimal digits without zeros in front. There is at least one item.
pub fn read_schedule(alloc: Global, text: &[u8]) -> Result<Vec<Turns>, ScheduleFault>
    ensures { MatchResult result (λ v. IsSchedule text.now v.items) (λ e. (e ≡ fault.NoMemory) ⊎ ((e ≡ fault.Malformed) × ((schedule : List Turns) → ¬ (IsSchedule text.now schedule)))) }
{
    let items = cut(alloc, text, b',')?;
    match read_items(alloc, &items)? {
        Some(schedule) => Ok(schedule),
        None => Err(ScheduleFault::Malformed),
    }
}

fn read_items(alloc: Global, items: &[&[u8]]) -> Result<Option<Vec<Turns>>, NoMemory>
    ensures { IfOk result (λ o. MatchOption o ((schedule : List Turns) → ¬ (AreItems (map (λ item. item.now) items.now) schedule)) (λ v. AreItems (map (λ item. item.now) items.now) v.items)) }
{
    let mut schedule = Vec::with_capacity(alloc, items.len())?;
    for item in items {
        match read_item(alloc, item)? {
            Some(turns) => schedule.push(turns)?,
            None => return Ok(None),
        }
    }
    Ok(Some(schedule))
}
