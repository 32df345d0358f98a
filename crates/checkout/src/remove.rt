//! The task that removes what stands at a path, with all that is in it.
ghost use Rattle.std.specs.Prelude.{◌≡◌, ◌≢◌, ◌≤◌, ◌<◌, ◌+◌, ◌*◌, ◌^◌, [], length, reverse};
ghost use Rattle.ost_types.specs.Path.{IsPath};
ghost use Rattle.fs_trait.specs.declared.task.Need.TheVariants as need;
ghost use Rattle.checkout.specs.Remove.{Removing, begun, left, waiting};

mod folder;
mod look;
mod phase;
mod steps;

use folder::OpenFolder;
use fs_trait::Need;
use ost_types::FsPath;
use phase::Phase;
use std::alloc::Global;
use std::marker::Model;

/// The task that removes what stands at a path, with all that is in it, a step at a time: each leaf is unlinked, and each folder
/// is removed once nothing is left in it. It keeps what was listed of the folders on the way down, and no more.
#[derive(Drop, Debug)]
pub struct RemoveTask {
    at: FsPath,
    phase: Phase,
    // the folders around the innermost one that is open, from the outermost on
    outer: Vec<OpenFolder>,
    // how many more folders may be opened
    room: u64,
}

impl Model for RemoveTask {
    ghost use Rattle.std.specs.Prelude.{reverse};
    ghost use Rattle.checkout.specs.Remove.{Removing, IsMade};

    ghost Value = { Removing };

    ghost view = { λ a. record { at = a.at; phase = a.phase; outer = reverse a.outer.items; room = a.room } };

    ghost invariant = { λ a. IsMade (record { at = a.at; phase = a.phase; outer = reverse a.outer.items; room = a.room }) };
}

/// No more folders than this are opened: so many removals of folders are more than a file system lives to see.
const MOST: u64 = 1 << 63;

/// More than the names of any folder.
const EACH: u128 = 1 << 64;

impl RemoveTask {
    /// Removes what stands at this path, which isn't the root.
    pub fn new(alloc: Global, at: FsPath) -> RemoveTask
        requires { at ≢ [] }
        ensures { result ≡ begun at }
    {
        RemoveTask {
            at,
            phase: Phase::Look,
            outer: Vec::new(alloc),
            room: MOST,
        }
    }

    /// The lock under which the next step must stand: none.
    pub fn needs(&self) -> Need
        ensures { result ≡ need.Nothing }
    {
        Need::Nothing
    }

    /// At most so many steps are left: those for the names that were listed, and for as many folders as may still be opened.
    pub fn left(&self) -> u128
        ensures value { result ≡ left self.now }
        ensures small { result < 2 ^ 127 + 2 ^ 72 }
    {
        match &self.phase {
            Phase::Look => self.room as u128 * EACH + 1,
            Phase::Inside(folder) => {
                let _names = folder.path().names();
                self.room as u128 * EACH + folder.count() as u128 + 1 + self.waiting()
            }
            Phase::Ended => 0,
        }
    }

    // the names in the folders around the innermost one, and these folders
    fn waiting(&self) -> u128
        requires few { length self.now.outer ≤ 80 }
        ensures value { result ≡ waiting self.now.outer }
        ensures small { result ≤ 80 * 2 ^ 64 }
    {
        let mut steps = 0;
        for folder in self.outer.as_slice() {
            steps += folder.count() as u128 + 1;
        }
        steps
    }
}
