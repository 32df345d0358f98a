ghost use Rattle.std.specs.Prelude.{◌≡◌, ◌≤◌, Some, OnOk, IfOk, IfErr};
ghost use Rattle.ost_types.specs.Path.{Path};
ghost use Rattle.fs_trait.specs.View.{View, all_synced};
ghost use Rattle.fs_trait.specs.Image.{Told};
ghost use Rattle.fs_trait.specs.Seen.{Always, shows};
ghost use Rattle.fs_trait.specs.Effect.{Next};
ghost use Rattle.fs_trait.specs.Change.{Left};
ghost use Rattle.sys_open.specs.Faults.{HasReason, IsInterruption};
ghost use Rattle.layout_rules.specs.Checks.{IsSane};
ghost use Rattle.boot_read.specs.Rows.{AreRowsOf};
ghost use Rattle.store_check.specs.Listing.{AreAll};
ghost use Rattle.sys_open.specs.Changes.{Changes, IsArranged, Works};
ghost use Rattle.sys_open.specs.Damages.{HasConfig};
ghost use Rattle.sys_open.specs.LeftOver.{AreLeftOvers, CanGo};
ghost use Rattle.sys_open.specs.Opening.{Answers, AreAscending, Begins, KeepsSince, OnDamage};

use crate::arrange::arrange;
use crate::barrier::barrier;
use crate::check::check;
use crate::fault::OpenFault;
use boot_read::BootRow;
use fs_trait::Fs;
use ost_types::{Csum, FsPath, Limits, ObjName};
use repo_layout::RefName;
use std::alloc::Global;
use std::thread::Threads;

// arranges what the checks allow, and makes it outlast a crash where something was changed
fn settle<F: Fs>(alloc: Global, fs: &mut F, left_overs: &[FsPath]) -> Result<(), OpenFault>
    requires sane { (v : View) → F.view fs.old ≡ Some v → IsSane v.now }
    requires config { (v : View) → F.view fs.old ≡ Some v → HasConfig v.now }
    requires left_overs { (v : View) → F.view fs.old ≡ Some v → AreLeftOvers v.now left_overs.now }
    requires can_go { (v : View) → F.view fs.old ≡ Some v → (p : Path) → CanGo v.now p }
    requires settled { (v : View) → F.view fs.old ≡ Some v → (p : Path) → Always v p (shows v.now p) }
    ensures works { (v : View) → F.view fs.old ≡ Some v → Works (Changes v.now) v (F.clock fs.old) (F.clock fs.new) (F.was fs.old) (F.was fs.new) (F.view fs.new) }
    ensures arranged { (v : View) → F.view fs.old ≡ Some v → OnOk result (Told (F.view fs.new) (λ w. IsArranged v.now w.now)) }
    ensures settled { (v : View) → F.view fs.old ≡ Some v → OnOk result (Told (F.view fs.new) (λ w. (p : Path) → Always w p (shows w.now p))) }
    ensures fails { (v : View) → F.view fs.old ≡ Some v → IfErr result IsInterruption }
    ensures later { F.clock fs.old ≤ F.clock fs.new }
    ensures reason { HasReason (F.faults fs.old) (F.faults fs.new) result }
{
    let before = fs.clock();
    arrange(alloc, fs, left_overs)?;
    if fs.clock() == before {
        Ok(())
    } else {
        barrier(alloc, fs)
    }
}

/// What an opening found.
#[derive(Drop)]
pub struct Findings {
    /// Ascending by the bytes of the names.
    pub refs: Vec<(RefName, Csum)>,
    /// The names of all objects, ascending.
    pub objects: Vec<ObjName>,
    /// The list that boots, the one that boots first coming first.
    pub rows: Vec<BootRow>,
    /// The clock after the first barrier.
    pub clock: u64,
}

/// Opens the repository: makes all that is there outlast a crash, checks it, and then makes the folders that are absent, writes the
/// configuration where there is none, and removes what stands at the staging paths and what no list boots.
pub fn open<R: Threads + Sync, F: Fs>(
    rt: &R,
    alloc: Global,
    fs: &mut F,
    limits: &Limits,
) -> Result<Findings, OpenFault>
    ensures told { (v : View) → F.view fs.old ≡ Some v → Answers limits.now v.now result }
    ensures begins { (v : View) → F.view fs.old ≡ Some v → IfOk result (λ o. Told (F.view fs.new) (λ w. Begins o.refs.items v w)) }
    ensures found { (v : View) → F.view fs.old ≡ Some v → IfOk result (λ o. AreAll v.now o.objects.items × AreRowsOf v.now o.rows.items) }
    ensures still { (v : View) → F.view fs.old ≡ Some v → OnDamage result (F.view fs.new ≡ Some (all_synced v)) }
    ensures works { (v : View) → F.view fs.old ≡ Some v → Works (Changes v.now) v (F.clock fs.old) (F.clock fs.new) (F.was fs.old) (F.was fs.new) (F.view fs.new) }
    ensures keeps { (v : View) → F.view fs.old ≡ Some v → IfOk result (λ o. KeepsSince (Left (F.was fs.new)) o.clock v.now) }
    ensures ascending { IfOk result (λ o. AreAscending o.refs.items) }
    ensures past { IfOk result (λ o. o.clock ≤ F.clock fs.new) }
    ensures opened { IfOk result (λ o. Next (F.clock fs.old) o.clock) }
    ensures later { F.clock fs.old ≤ F.clock fs.new }
    ensures reason { HasReason (F.faults fs.old) (F.faults fs.new) result }
{
    barrier(alloc, fs)?;
    let clock = fs.clock();
    let contents = check(rt, alloc, fs, limits)?;
    settle(alloc, fs, contents.left_overs.as_slice())?;
    Ok(Findings {
        refs: contents.refs,
        objects: contents.objects,
        rows: contents.rows,
        clock,
    })
}
