ghost use Rattle.std.specs.Prelude.{◌≡◌, IfOk};
ghost use Rattle.memory_table.specs.Filled.{filled};

use ost_types::{Bytes, NoMemory};
use std::alloc::Global;

/// The bytes, each XORed with one byte.
#[tactic(auto, unfolding(crate::specs::Filled::filled))]
pub fn spoil(alloc: Global, bytes: &Bytes, fill: u8) -> Result<Bytes, NoMemory>
    ensures { IfOk result (λ b. b ≡ filled fill bytes.now) }
{
    let spoiled: Vec<u8> = bytes
        .as_slice()
        .iter()
        .map(|byte| *byte ^ fill)
        .collect(alloc)?;
    Ok(Bytes::from_vec(spoiled))
}
