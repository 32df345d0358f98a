ghost use Rattle.std.specs.Prelude.{◌≡◌, IfOk};
ghost use Rattle.std.specs.Fmt.{decimal};
ghost use Rattle.schedule.specs.Schedule.{Gives, IsItem};

use crate::Turns;
use crate::cut::cut;
use crate::number::number_within;
use ost_types::NoMemory;
use std::alloc::Global;

/// The turns of an item: an actor, or an actor and a count with `*` between them.
pub fn read_item(alloc: Global, item: &[u8]) -> Result<Option<Turns>, NoMemory>
    ensures { IfOk result (Gives (IsItem item.now)) }
{
    let parts = cut(alloc, item, b'*')?;
    match parts.as_slice() {
        [actor] => Ok(one_turn(actor)),
        [actor, count] => Ok(turns_of(actor, count)),
        _ => Ok(None),
    }
}

fn one_turn(actor: &[u8]) -> Option<Turns>
    ensures { Gives (λ turns. (actor.now ≡ decimal turns.actor) × (turns.count ≡ 1)) result }
{
    let actor = number_within(actor, 0, 15)?;
    Some(Turns {
        actor: actor as u8,
        count: 1,
    })
}

fn turns_of(actor: &[u8], count: &[u8]) -> Option<Turns>
    ensures { Gives (λ turns. (actor.now ≡ decimal turns.actor) × (count.now ≡ decimal turns.count)) result }
{
    let actor = number_within(actor, 0, 15)?;
    let count = number_within(count, 1, 100_000)?;
    Some(Turns {
        actor: actor as u8,
        count: count as u32,
    })
}
