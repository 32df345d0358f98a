//! Several paths, and all that stands at them or below.
ghost use Rattle.std.specs.Prelude.{◌≡◌, ◌≢◌, ◌≤◌, [], Some, All, Contains, OnOk, IfErr};
ghost use Rattle.ost_types.specs.Path.{Path};
ghost use Rattle.fs_trait.specs.View.{View};
ghost use Rattle.fs_trait.specs.Image.{Told};
ghost use Rattle.fs_trait.specs.Seen.{Vacant, shows};
ghost use Rattle.fs_trait.specs.Effect.{IsQuiet};
ghost use Rattle.layout_rules.specs.Checks.{IsReached};
ghost use Rattle.sys_open.specs.Changes.{ClearsAll, Works};
ghost use Rattle.sys_open.specs.Faults.{HasReason, IsInterruption};
ghost use Rattle.sys_open.specs.LeftOver.{AsksBelow};
ghost use Rattle.sys_open.specs.Walk.{Finds, IsLeastWrong, IsSoBelow};

use crate::clear::clear;
use crate::fault::OpenFault;
use crate::least::{damage, lesser};
use crate::reaching::reach;
use fs_trait::Fs;
use ost_types::FsPath;
use std::alloc::Global;

/// Looks at these paths and all below them, for the least folder that has a name which is too long for a path.
pub fn reach_all<F: Fs>(
    alloc: Global,
    fs: &mut F,
    paths: &[FsPath],
) -> Result<Option<FsPath>, OpenFault>
    ensures told { (v : View) → F.view fs.old ≡ Some v → Finds (IsLeastWrong (AsksBelow paths.now v.now)) result }
    ensures quiet { IsQuiet (F.clock fs.old) (F.clock fs.new) (F.was fs.old) (F.was fs.new) (F.view fs.old) (F.view fs.new) }
    ensures reason { HasReason (F.faults fs.old) (F.faults fs.new) result }
{
    let mut least = None;
    for path in paths {
        let found = damage(reach(alloc, fs, path))?;
        least = lesser(least, found);
    }
    Ok(least)
}

/// Removes what stands at these paths, in their order.
pub fn clear_all<F: Fs>(alloc: Global, fs: &mut F, paths: &[FsPath]) -> Result<(), OpenFault>
    requires { (v : View) → F.view fs.old ≡ Some v → All (λ p. p ≢ []) paths.now }
    ensures works { (v : View) → F.view fs.old ≡ Some v → Works (ClearsAll paths.now) v (F.clock fs.old) (F.clock fs.new) (F.was fs.old) (F.was fs.new) (F.view fs.new) }
    ensures cleared { (v : View) → F.view fs.old ≡ Some v → OnOk result (Told (F.view fs.new) (λ w. (q : Path) → Contains paths.now q → shows w.now q ≡ Vacant)) }
    ensures fails { (v : View) → F.view fs.old ≡ Some v → ((q : Path) → Contains paths.now q → IsSoBelow (IsReached v.now) q) → IfErr result IsInterruption }
    ensures later { F.clock fs.old ≤ F.clock fs.new }
    ensures reason { HasReason (F.faults fs.old) (F.faults fs.new) result }
{
    for path in paths {
        clear(alloc, fs, path)?;
    }
    Ok(())
}
