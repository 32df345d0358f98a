ghost use Rattle.std.specs.Prelude.{IfOk};
ghost use Rattle.script.specs.Field.{Gives};
ghost use Rattle.script_reader.specs.Values.{IsTarget};

use ost_types::{NoMemory, Text};
use script::read_text;
use std::alloc::Global;

/// The target of a link that a field has.
pub fn read_target(alloc: Global, field: &[u8]) -> Result<Option<Text>, NoMemory>
    ensures { IfOk result (Gives (IsTarget field.now)) }
{
    match read_text(alloc, field)? {
        Some(target) if !target.as_slice().is_empty() => Ok(Some(target)),
        _ => Ok(None),
    }
}
