ghost use Rattle.std.specs.Prelude.{◌≡◌, IfOk};
ghost use Rattle.list_family.specs.Family.{unused};

use boot_model::DepId;
use ost_types::{NoMemory, TryCopy};
use script::StatusRow;
use std::alloc::Global;

/// A row for each of these deployments, which no lane uses.
pub fn status_rows(alloc: Global, deployments: &[DepId]) -> Result<Vec<StatusRow>, NoMemory>
    ensures { IfOk result (λ rows. rows.items ≡ unused deployments.now) }
{
    let mut rows = Vec::with_capacity(alloc, deployments.len())?;
    for id in deployments {
        rows.push(StatusRow {
            id: id.copy()?,
            lane: None,
        })?;
    }
    Ok(rows)
}
