//! What the system knows at the opening beside the disk.
ghost use Rattle.std.specs.Prelude.{◌≡◌, IfOk};
ghost use Rattle.rely_guarantee.specs.State.{first};
ghost use Rattle.ref_book.specs.Tracks.{Tracks};
ghost use Rattle.durable_list.specs.Standing.{ids_of};

use boot_model::DepId;
use boot_read::BootRow;
use fs_watch::Watch;
use ost_types::{NoMemory, TryCopy};
use ref_book::RefBook;
use std::alloc::Global;
use sys_open::Opened;

/// The refs, and the deployments that boot, the one that boots first in front.
pub(crate) fn known_at_opening<F: Watch>(
    alloc: Global,
    opened: &Opened<F>,
) -> Result<(RefBook, Vec<DepId>), NoMemory>
    ensures refs { IfOk result (λ known. Tracks known.0 (first opened.now.refs)) }
    ensures deployments { IfOk result (λ known. known.1.items ≡ ids_of opened.now.rows) }
{
    let refs = RefBook::new(alloc, opened.refs())?;
    let deployments = ids(alloc, opened.rows())?;
    Ok((refs, deployments))
}

/// The names of the rows' deployments.
fn ids(alloc: Global, rows: &[BootRow]) -> Result<Vec<DepId>, NoMemory>
    ensures { IfOk result (λ ids. ids.items ≡ ids_of rows.now) }
{
    let mut ids = Vec::with_capacity(alloc, rows.len())?;
    for row in rows {
        ids.push(row.id.copy()?)?;
    }
    Ok(ids)
}
