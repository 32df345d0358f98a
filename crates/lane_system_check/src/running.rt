//! Lanes that run to their ends.
ghost use Rattle.std.specs.Prelude.{◌≡◌, ◌≤◌, ℕ, [], length, map, IfOk, IfErr};
ghost use Rattle.lane_system.specs.declared.lane.Lane.{Lane};
ghost use Rattle.lane_system.specs.declared.lane.Reply.{Reply};
ghost use Rattle.lane_system.specs.Kept.{AreIdle};
ghost use Rattle.lane_system.specs.Lanes.{IsAt, IsCommand, IsTo};
ghost use Rattle.lane_system.specs.Replies.{IfAnswer};
ghost use Rattle.lane_system_check.specs.declared.task.WaitTask.{WaitTask};
ghost use Rattle.lane_system_check.specs.declared.words.WaitWords.{WaitWords};
ghost use Rattle.lane_system_check.specs.Family.{number_of, wait_means};

use crate::{WaitTask, WaitWords};
use fs_watch::Watch;
use lane_system::{Lane, Parts, System};
use ost_types::NoMemory;
use std::alloc::Global;
use sys_open::Opened;

/// Runs the lanes on a repository that was opened. Where memory is wanting the repository comes back.
pub fn run_lanes<F: Watch>(
    alloc: Global,
    opened: Opened<F>,
    lanes: Vec<Lane<WaitTask, WaitWords, u8>>,
) -> Result<Parts<F, WaitTask, WaitWords, u8>, (Opened<F>, NoMemory)>
    requires few { length lanes.items ≤ 8 }
    requires idle { AreIdle wait_means opened.limits lanes.items }
    ensures words { IfOk result (λ p. map (λ lane. lane.words.items) p.lanes.items ≡ map (λ lane. lane.words.items) lanes.items) }
    ensures answers { IfOk result (λ p. (lane number : ℕ) (r : Reply ℕ) (c : WaitWords) → IsTo p.lanes.items lane number r → IsCommand p.lanes.items lane number c → IfAnswer (λ a. a ≡ number_of c) r.answer) }
    ensures ended { IfOk result (λ p. (k : ℕ) (lane : Lane WaitTask WaitWords ℕ) → IsAt p.lanes.items k lane → length lane.replies.items ≡ length lane.words.items) }
    ensures unchanged { IfOk result (λ p. p.history.items ≡ []) }
    ensures back { IfErr result (λ e. e.0 ≡ opened) }
{
    match System::new(alloc, opened, lanes) {
        Ok(system) => {
            let mut system = system;
            system.drive(&[]);
            Ok(system.into_parts())
        }
        Err((opened, NoMemory)) => Err((opened, NoMemory)),
    }
}
