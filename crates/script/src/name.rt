//! Names of nodes as fields.
ghost use Rattle.std.specs.Prelude.{IfOk};
ghost use Rattle.script.specs.Field.{Gives, IsNameField};

use crate::field::read_field;
use ost_types::{Name, NoMemory};
use std::alloc::Global;

/// The name that a field has.
pub fn read_name(alloc: Global, field: &[u8]) -> Result<Option<Name>, NoMemory>
    ensures { IfOk result (Gives (IsNameField field.now)) }
{
    match read_field(alloc, field)? {
        Some(text) => Name::parse(alloc, text.as_slice()),
        None => Ok(None),
    }
}
