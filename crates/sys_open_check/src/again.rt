ghost use Rattle.std.specs.Prelude.{◌≡◌, Some, IfOk, IfErr};
ghost use Rattle.fs_trait.specs.View.{View};
ghost use Rattle.rely_guarantee.specs.Disks.{Logical};
ghost use Rattle.rely_guarantee.specs.State.{first};
ghost use Rattle.sys_open.specs.Damages.{IsGood};
ghost use Rattle.sys_open.specs.Opening.{AreAscending, IsToldOf};

use fs_trait::Fs;
use ost_types::{Csum, Limits};
use repo_layout::RefName;
use std::alloc::Global;
use std::thread::Threads;
use sys_open::{OpenFault, adopt};

/// What an opening tells of a file system.
#[derive(Drop)]
pub struct Found<F> {
    pub fs: F,
    /// Ascending by the bytes of the names.
    pub refs: Vec<(RefName, Csum)>,
}

/// Opens the repository of a file system, and gives the file system back, with the refs or the fault.
pub fn open_again<R: Threads + Sync, F: Fs>(
    rt: &R,
    alloc: Global,
    fs: F,
    limits: Limits,
) -> Result<Found<F>, (F, OpenFault)>
    ensures good { (v : View) → F.view fs ≡ Some v → IfOk result (λ f. IsGood limits v.now) }
    ensures refs { (v : View) → F.view fs ≡ Some v → IfOk result (λ f. Logical v.now (first f.refs.items)) }
    ensures told { (v : View) → F.view fs ≡ Some v → IfErr result (λ e. IsToldOf limits v.now e.1) }
    ensures ascending { IfOk result (λ f. AreAscending f.refs.items) }
{
    let opened = adopt(rt, alloc, fs, limits)?;
    let parts = opened.into_parts();
    Ok(Found {
        fs: parts.fs,
        refs: parts.refs,
    })
}
