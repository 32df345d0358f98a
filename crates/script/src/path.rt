//! Paths as fields.
ghost use Rattle.std.specs.Prelude.{◌≡◌, ◌≢◌, None, IfOk};
ghost use Rattle.ost_types.specs.declared.path.parse.PathFault.TheVariants as kind;
ghost use Rattle.script.specs.Field.{Gives, IsPathField, IsPathText};

use crate::field::read_field;
use ost_types::{FsPath, NoMemory, PathFault};
use std::alloc::Global;

/// The path that a field has.
pub fn read_path(alloc: Global, field: &[u8]) -> Result<Option<FsPath>, NoMemory>
    ensures { IfOk result (Gives (IsPathField field.now)) }
{
    match read_field(alloc, field)? {
        Some(text) => parse_path(alloc, text.as_slice()),
        None => Ok(None),
    }
}

fn parse_path(alloc: Global, text: &[u8]) -> Result<Option<FsPath>, NoMemory>
    ensures { IfOk result (Gives (IsPathText text.now)) }
{
    match FsPath::parse(alloc, text) {
        Ok(path) => Ok(Some(path)),
        Err(fault) => refused(fault),
    }
}

/// No path, but where memory was wanted.
fn refused(fault: PathFault) -> Result<Option<FsPath>, NoMemory>
    ensures { IfOk result (λ o. (o ≡ None) × (fault ≢ kind.NoMemory)) }
{
    match fault {
        PathFault::NoMemory => Err(NoMemory),
        _ => Ok(None),
    }
}
