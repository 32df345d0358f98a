//! Rows in the order of the list.
ghost use Rattle.std.specs.Prelude.{IfOk};
ghost use Rattle.std.specs.List.Sorted.{IsNonDecreasingBy, IsPermutation};
ghost use Rattle.boot_read.specs.Steps.{rank};

use crate::row::BootRow;
use ost_types::NoMemory;

/// The rows by falling version.
pub(crate) fn by_version(rows: Vec<BootRow>) -> Result<Vec<BootRow>, NoMemory>
    ensures same { IfOk result (λ v. IsPermutation rows.items v.items) }
    ensures falling { IfOk result (λ v. IsNonDecreasingBy rank v.items) }
{
    let mut rows = rows;
    rows.sort_by_key(|row| u32::MAX - row.version)?;
    Ok(rows)
}
