//! The staging paths.
ghost use Rattle.std.specs.Prelude.{◌≡◌, ◌≤◌, ◌<◌, ℕ, [], Some, All, OnOk, IfErr};
ghost use Rattle.ost_types.specs.Path.{Path};
ghost use Rattle.fs_trait.specs.View.{View};
ghost use Rattle.fs_trait.specs.Image.{Told};
ghost use Rattle.fs_trait.specs.Seen.{Vacant, shows};
ghost use Rattle.fs_trait.specs.Effect.{IsQuiet};
ghost use Rattle.repo_layout.specs.Paths.{stage_path};
ghost use Rattle.sys_open.specs.declared.fault.Why.TheVariants.{WrongKind};
ghost use Rattle.sys_open.specs.Faults.{HasReason, IsInterruption};
ghost use Rattle.layout_rules.specs.Checks.{Asks, IsReached, Staging};
ghost use Rattle.sys_open.specs.Stages.{stage_order};
ghost use Rattle.sys_open.specs.Walk.{IsSoBelow, Walked};
ghost use Rattle.sys_open.specs.Changes.{Clears, ClearsStages, Works};

use crate::clear::clear;
use crate::fault::OpenFault;
use crate::reaching::reach;
use fs_trait::Fs;
use repo_layout::stage_path;
use std::alloc::Global;

/// The actors, ascending by their staging paths.
pub fn actors() -> &'static [u8]
    ensures value { result.now ≡ stage_order }
    ensures small { All (λ a. a < 16) result.now }
{
    &[0, 1, 10, 11, 12, 13, 14, 15, 2, 3, 4, 5, 6, 7, 8, 9]
}

/// Looks at what stands at the staging paths. The least folder is told that has a name which is too long for a path.
pub fn check_stages<F: Fs>(alloc: Global, fs: &mut F) -> Result<(), OpenFault>
    ensures told { (v : View) → F.view fs.old ≡ Some v → Walked (Asks Staging v.now) WrongKind [] result }
    ensures quiet { IsQuiet (F.clock fs.old) (F.clock fs.new) (F.was fs.old) (F.was fs.new) (F.view fs.old) (F.view fs.new) }
    ensures reason { HasReason (F.faults fs.old) (F.faults fs.new) result }
{
    for actor in actors() {
        check_stage(alloc, fs, *actor)?;
    }
    Ok(())
}

fn check_stage<F: Fs>(alloc: Global, fs: &mut F, actor: u8) -> Result<(), OpenFault>
    requires { actor < 16 }
    ensures told { (v : View) → F.view fs.old ≡ Some v → Walked (IsReached v.now) WrongKind (stage_path actor) result }
    ensures quiet { IsQuiet (F.clock fs.old) (F.clock fs.new) (F.was fs.old) (F.was fs.new) (F.view fs.old) (F.view fs.new) }
    ensures reason { HasReason (F.faults fs.old) (F.faults fs.new) result }
{
    let at = stage_path(alloc, actor)?;
    reach(alloc, fs, &at)
}

/// Removes what stands at the staging paths.
pub fn clear_stages<F: Fs>(alloc: Global, fs: &mut F) -> Result<(), OpenFault>
    ensures works { (v : View) → F.view fs.old ≡ Some v → Works ClearsStages v (F.clock fs.old) (F.clock fs.new) (F.was fs.old) (F.was fs.new) (F.view fs.new) }
    ensures cleared { (v : View) → F.view fs.old ≡ Some v → OnOk result (Told (F.view fs.new) (λ w. (actor : ℕ) → actor < 16 → shows w.now (stage_path actor) ≡ Vacant)) }
    ensures fails { (v : View) → F.view fs.old ≡ Some v → ((p : Path) → Asks Staging v.now p) → IfErr result IsInterruption }
    ensures later { F.clock fs.old ≤ F.clock fs.new }
    ensures reason { HasReason (F.faults fs.old) (F.faults fs.new) result }
{
    for actor in actors() {
        clear_stage(alloc, fs, *actor)?;
    }
    Ok(())
}

/// Removes what stands at the staging path of an actor.
pub fn clear_stage<F: Fs>(alloc: Global, fs: &mut F, actor: u8) -> Result<(), OpenFault>
    requires { actor < 16 }
    ensures works { (v : View) → F.view fs.old ≡ Some v → Works (Clears (stage_path actor)) v (F.clock fs.old) (F.clock fs.new) (F.was fs.old) (F.was fs.new) (F.view fs.new) }
    ensures cleared { (v : View) → F.view fs.old ≡ Some v → OnOk result (Told (F.view fs.new) (λ w. shows w.now (stage_path actor) ≡ Vacant)) }
    ensures fails { (v : View) → F.view fs.old ≡ Some v → IsSoBelow (IsReached v.now) (stage_path actor) → IfErr result IsInterruption }
    ensures later { F.clock fs.old ≤ F.clock fs.new }
    ensures reason { HasReason (F.faults fs.old) (F.faults fs.new) result }
{
    let at = stage_path(alloc, actor)?;
    clear(alloc, fs, &at)
}
