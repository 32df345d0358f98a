//! What an opening removes can be removed, and so can what a later one may.
ghost use Rattle.std.specs.Prelude.{◌≡◌, [], List, Some, IfOk};
ghost use Rattle.ost_types.specs.declared.limits.Limits.{Limits};
ghost use Rattle.fs_trait.specs.View.{View};
ghost use Rattle.fs_trait.specs.Effect.{IsQuiet};
ghost use Rattle.boot_read.specs.declared.row.BootRow.{BootRow as Row};
ghost use Rattle.boot_read.specs.Rows.{AreRowsOf};
ghost use Rattle.durable_deployments.specs.Standing.{AreWhole};
ghost use Rattle.durable_list.specs.Standing.{ids_of};
ghost use Rattle.sys_open.specs.declared.fault.Why.TheVariants.{WrongKind};
ghost use Rattle.sys_open.specs.Damages.{Clearable};
ghost use Rattle.sys_open.specs.Faults.{HasReason};
ghost use Rattle.sys_open.specs.LeftOver.{AreLeftOvers, AreStaying};
ghost use Rattle.sys_open.specs.Walk.{Walked};

use crate::fault::{OpenFault, Why};
use crate::least::{damage, lesser};
use crate::several::reach_all;
use crate::stages::check_stages;
use crate::staying::staying;
use crate::unlisted::left_overs;
use boot_read::BootRow;
use fs_trait::Fs;
use ost_types::FsPath;
use std::alloc::Global;

/// The paths of all that no list boots, where these are the rows of the list that the disk boots, once it was looked at, with all that may
/// be so later.
pub fn check_left_overs<F: Fs>(
    alloc: Global,
    fs: &mut F,
    rows: &[BootRow],
) -> Result<Vec<FsPath>, OpenFault>
    ensures told { (v : View) (limits : Limits) → F.view fs.old ≡ Some v → AreRowsOf v.now rows.now → AreWhole limits v.now rows.now → Walked (Clearable v.now) WrongKind [] result }
    ensures left_overs { (v : View) → F.view fs.old ≡ Some v → AreRowsOf v.now rows.now → IfOk result (λ paths. AreLeftOvers v.now paths.items) }
    ensures quiet { IsQuiet (F.clock fs.old) (F.clock fs.new) (F.was fs.old) (F.was fs.new) (F.view fs.old) (F.view fs.new) }
    ensures reason { HasReason (F.faults fs.old) (F.faults fs.new) result }
{
    let left_overs = left_overs(alloc, fs, rows)?;
    let staying = staying(alloc, fs, rows)?;
    check_removal(alloc, fs, left_overs.as_slice(), staying.as_slice())?;
    Ok(left_overs)
}

// Looks at what stands at the staging paths, at these paths of what no list boots, and at these of what stays. The least folder is told
// that has a name which is too long for a path.
fn check_removal<F: Fs>(
    alloc: Global,
    fs: &mut F,
    left_overs: &[FsPath],
    staying: &[FsPath],
) -> Result<(), OpenFault>
    ensures told { (v : View) (limits : Limits) (rows : List Row) → F.view fs.old ≡ Some v → AreRowsOf v.now rows → AreWhole limits v.now rows → AreLeftOvers v.now left_overs.now → AreStaying v.now (ids_of rows) staying.now → Walked (Clearable v.now) WrongKind [] result }
    ensures quiet { IsQuiet (F.clock fs.old) (F.clock fs.new) (F.was fs.old) (F.was fs.new) (F.view fs.old) (F.view fs.new) }
    ensures reason { HasReason (F.faults fs.old) (F.faults fs.new) result }
{
    let staged = damage(check_stages(alloc, fs))?;
    let left = reach_all(alloc, fs, left_overs)?;
    let stays = reach_all(alloc, fs, staying)?;
    let found = lesser(left, stays);
    match lesser(staged, found) {
        None => Ok(()),
        Some(path) => Err(OpenFault::Damaged(path, Why::WrongKind)),
    }
}
