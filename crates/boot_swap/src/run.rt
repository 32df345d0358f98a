//! A swap from the first step to the last.
ghost use Rattle.std.specs.Prelude.{◌≡◌, Some, OnOk};
ghost use Rattle.fs_trait.specs.View.{View};
ghost use Rattle.fs_trait.specs.Image.{EachImage, Told};
ghost use Rattle.fs_trait.specs.Effect.{HasCause, LeavesEach};
ghost use Rattle.fs_trait.specs.Change.{Writes};
ghost use Rattle.boot_model.specs.Items.{AreItems};
ghost use Rattle.boot_model.specs.Listing.{Boots};
ghost use Rattle.boot_swap.specs.Whole.{KeepsLoader, Leaves, MaySwap, Swaps};

use crate::task::SwapTask;
use boot_model::BootItem;
use fs_trait::{Fs, FsErr, StepResult};
use std::alloc::Global;

/// Lets a list boot, the first member first. A crash at any moment leaves the old list or the new one.
pub fn swap<F: Fs>(alloc: Global, fs: &mut F, items: Vec<BootItem>) -> Result<(), FsErr>
    requires items { AreItems items.items }
    requires may { (v : View) → F.view fs.old ≡ Some v → MaySwap items.items v }
    ensures any_moment { (v : View) → F.view fs.old ≡ Some v → LeavesEach (F.clock fs.old) (F.clock fs.new) (F.was fs.old) (F.was fs.new) (Leaves items.items v) }
    ensures writes { (v : View) → F.view fs.old ≡ Some v → Told (F.view fs.new) (λ w. Writes (Swaps v.now) v w) }
    ensures done { (v : View) → F.view fs.old ≡ Some v → OnOk result (Told (F.view fs.new) (λ w. EachImage w (λ d. Boots d items.items))) }
    ensures loader { (v : View) → F.view fs.old ≡ Some v → OnOk result (Told (F.view fs.new) (λ w. KeepsLoader items.items v.now w.now)) }
    ensures cause { HasCause (F.faults fs.old) (F.faults fs.new) result }
{
    let mut task = SwapTask::new(alloc, items);
    'steps: loop {
        match task.step(fs)? {
            StepResult::More => {
                let _left = task.left();
            }
            StepResult::Done(()) => return Ok(()),
        }
    }
}
