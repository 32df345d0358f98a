ghost use Rattle.std.specs.Prelude.{◌≡◌, map, IfOk};
ghost use Rattle.schedule.specs.Schedule.{pieces};

use ost_types::NoMemory;
use std::alloc::{AllocError, Global};

/// The pieces of a text between the bytes of this value.
pub fn cut(alloc: Global, text: &[u8], at: u8) -> Result<Vec<&[u8]>, NoMemory>
    ensures { IfOk result (λ v. map (λ x. x.now) v.items ≡ pieces at text.now) }
{
    Ok(collect(alloc, text, at)?)
}

fn collect(alloc: Global, text: &[u8], at: u8) -> Result<Vec<&[u8]>, AllocError>
    ensures { IfOk result (λ v. map (λ x. x.now) v.items ≡ pieces at text.now) }
{
    text.split(|byte| *byte == at).collect(alloc)
}
