//! Whether the deployments of the list that boots are whole (OSTree manual, "Deployments").
ghost use Rattle.std.specs.Prelude.{◌≡◌, List, Some};
ghost use Rattle.ost_types.specs.declared.limits.Limits.{Limits as Bounds};
ghost use Rattle.fs_trait.specs.View.{View};
ghost use Rattle.fs_trait.specs.Effect.{IsQuiet};
ghost use Rattle.tree_walk.specs.Standing.{AreRight};
ghost use Rattle.boot_read.specs.declared.row.BootRow.{BootRow as Row};
ghost use Rattle.boot_read.specs.Rows.{AreRowsOf};
ghost use Rattle.deployment_check.specs.Judging.{Judges};
ghost use Rattle.sys_open.specs.Damages.{Deployments};
ghost use Rattle.sys_open.specs.Faults.{HasReason};
ghost use Rattle.sys_open.specs.Judged.{AreFaultsOf};
ghost use Rattle.sys_open.specs.Opening.{ToldBy};
ghost use Rattle.sys_open.specs.Walk.{Finds};

use crate::entries::entry_at;
use crate::fault::{OpenFault, Why, refused};
use crate::judged::{Broken, Faults};
use boot_read::BootRow;
use deployment_check::{Judgement, judge};
use fs_trait::Fs;
use ost_types::{FsPath, Limits};
use std::alloc::Global;

/// Judges each deployment of the list, once. Of those whose commit can't be deployed the first by its entry's path is told, or else
/// the first by its folder that isn't whole.
pub fn check_deployments<F: Fs>(
    alloc: Global,
    fs: &mut F,
    limits: &Limits,
    rows: &[BootRow],
) -> Result<(), OpenFault>
    ensures told { (v : View) → F.view fs.old ≡ Some v → AreRight limits.now.content v.now → AreRowsOf v.now rows.now → ToldBy Deployments limits.now v.now result }
    ensures quiet { IsQuiet (F.clock fs.old) (F.clock fs.new) (F.was fs.old) (F.was fs.new) (F.view fs.old) (F.view fs.new) }
    ensures reason { HasReason (F.faults fs.old) (F.faults fs.new) result }
{
    let faults = judge_all(alloc, fs, limits, rows)?;
    tell(alloc, fs, faults)
}

fn judge_all<F: Fs>(
    alloc: Global,
    fs: &mut F,
    limits: &Limits,
    rows: &[BootRow],
) -> Result<Faults, OpenFault>
    ensures told { (v : View) → F.view fs.old ≡ Some v → AreRight limits.now.content v.now → AreRowsOf v.now rows.now → Finds (AreFaultsOf limits.now v.now rows.now) result }
    ensures quiet { IsQuiet (F.clock fs.old) (F.clock fs.new) (F.was fs.old) (F.was fs.new) (F.view fs.old) (F.view fs.new) }
    ensures reason { HasReason (F.faults fs.old) (F.faults fs.new) result }
{
    let mut faults = Faults::none();
    for row in rows {
        let judgement = judge_row(alloc, fs, limits, row)?;
        faults = faults.with(alloc, row, judgement)?;
    }
    Ok(faults)
}

fn judge_row<F: Fs>(
    alloc: Global,
    fs: &mut F,
    limits: &Limits,
    row: &BootRow,
) -> Result<Judgement, OpenFault>
    ensures told { (v : View) → F.view fs.old ≡ Some v → Finds (Judges limits.now v.now row.now.id row.now.bootcsum) result }
    ensures quiet { IsQuiet (F.clock fs.old) (F.clock fs.new) (F.was fs.old) (F.was fs.new) (F.view fs.old) (F.view fs.new) }
    ensures reason { HasReason (F.faults fs.old) (F.faults fs.new) result }
{
    let root = FsPath::root(alloc);
    match judge(alloc, fs, *limits, &row.id, &row.bootcsum) {
        Ok(judgement) => Ok(judgement),
        Err(error) => Err(refused(&root, error)),
    }
}

// what an opening tells of it
fn tell<F: Fs>(alloc: Global, fs: &mut F, faults: Faults) -> Result<(), OpenFault>
    ensures told { (v : View) (limits : Bounds) (rows : List Row) → F.view fs.old ≡ Some v → AreRowsOf v.now rows → AreFaultsOf limits v.now rows faults → ToldBy Deployments limits v.now result }
    ensures quiet { IsQuiet (F.clock fs.old) (F.clock fs.new) (F.was fs.old) (F.was fs.new) (F.view fs.old) (F.view fs.new) }
    ensures reason { HasReason (F.faults fs.old) (F.faults fs.new) result }
{
    let Faults { unfit, broken } = faults;
    match unfit {
        Some(file) => {
            let at = entry_at(alloc, fs, &file)?;
            Err(OpenFault::Damaged(at, Why::NoDeployment))
        }
        None => match broken {
            Some(Broken { home: _, at, why }) => Err(OpenFault::Damaged(at, why)),
            None => Ok(()),
        },
    }
}
