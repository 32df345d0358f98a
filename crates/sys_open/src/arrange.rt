//! What an opening changes, once the checks are made.
ghost use Rattle.std.specs.Prelude.{◌≡◌, ◌≤◌, Some, OnOk, IfErr};
ghost use Rattle.ost_types.specs.Path.{Path};
ghost use Rattle.fs_trait.specs.View.{View};
ghost use Rattle.fs_trait.specs.Image.{Told};
ghost use Rattle.sys_open.specs.Faults.{HasReason, IsInterruption};
ghost use Rattle.layout_rules.specs.Checks.{IsSane};
ghost use Rattle.sys_open.specs.Changes.{Changes, IsArranged, Works};
ghost use Rattle.sys_open.specs.Damages.{HasConfig};
ghost use Rattle.sys_open.specs.LeftOver.{AreLeftOvers, CanGo};

use crate::configure::configure;
use crate::fault::OpenFault;
use crate::layout::lay_out;
use crate::several::clear_all;
use crate::stages::clear_stages;
use fs_trait::Fs;
use ost_types::FsPath;
use std::alloc::Global;

/// Makes the folders that are absent, writes the configuration where there is none, and removes what stands at the staging paths and at
/// these paths of what no list boots.
pub fn arrange<F: Fs>(alloc: Global, fs: &mut F, left_overs: &[FsPath]) -> Result<(), OpenFault>
    requires sane { (v : View) → F.view fs.old ≡ Some v → IsSane v.now }
    requires config { (v : View) → F.view fs.old ≡ Some v → HasConfig v.now }
    requires left_overs { (v : View) → F.view fs.old ≡ Some v → AreLeftOvers v.now left_overs.now }
    requires can_go { (v : View) → F.view fs.old ≡ Some v → (p : Path) → CanGo v.now p }
    ensures works { (v : View) → F.view fs.old ≡ Some v → Works (Changes v.now) v (F.clock fs.old) (F.clock fs.new) (F.was fs.old) (F.was fs.new) (F.view fs.new) }
    ensures arranged { (v : View) → F.view fs.old ≡ Some v → OnOk result (Told (F.view fs.new) (λ w. IsArranged v.now w.now)) }
    ensures fails { (v : View) → F.view fs.old ≡ Some v → IfErr result IsInterruption }
    ensures later { F.clock fs.old ≤ F.clock fs.new }
    ensures reason { HasReason (F.faults fs.old) (F.faults fs.new) result }
{
    lay_out(alloc, fs)?;
    configure(alloc, fs)?;
    clear_stages(alloc, fs)?;
    clear_all(alloc, fs, left_overs)
}
