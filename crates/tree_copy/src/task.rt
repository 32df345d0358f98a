ghost use Rattle.std.specs.Prelude.{◌≡◌, ◌≤◌, ◌<◌, ◌^◌, length};
ghost use Rattle.fs_trait.specs.declared.task.Need.TheVariants as needs;
ghost use Rattle.checkout.specs.CheckoutWork.{IsPlaced};
ghost use Rattle.tree_copy.specs.TreeWork.{IsMade, begun, left, most_paths};

mod steps;

use crate::phase::TreePhase;
use fs_trait::Need;
use ost_types::{FsPath, PathMap};
use std::alloc::Global;
use std::marker::Model;

/// The most paths of a map that is copied.
pub const MAX_PATHS: usize = 1 << 32;

/// No node takes more steps than this: one that begins it, and those of a copy of the longest file.
const NODE_STEPS: u128 = 5 + u64::MAX as u128;

/// The task that makes a tree by copies, a step at a time: it makes the folders of the map at a path, each symbolic link as its
/// object is, and each regular file as a new one with the attributes and bytes of its object, so that it shares no inode with one.
/// Where something stands at the path it is refused by its first step. After an error a part of the tree may stand there, and
/// stays. It syncs nothing: that the tree outlasts a crash is for a later sync.
#[derive(Drop, Debug)]
pub struct TreeCopy {
    alloc: Global,
    into: FsPath,
    tree: PathMap,
    phase: TreePhase,
}

impl Model for TreeCopy {
    ghost use Rattle.tree_copy.specs.TreeWork.{TreeCopying, IsMade};

    ghost Value = { TreeCopying };

    ghost view = { λ a. record { into = a.into; tree = a.tree; phase = a.phase } };

    ghost invariant = { λ a. IsMade (record { into = a.into; tree = a.tree; phase = a.phase }) };
}

impl TreeCopy {
    /// Copies the map's tree to this path.
    pub fn new(alloc: Global, into: FsPath, tree: PathMap) -> TreeCopy
        requires placed { IsPlaced into tree }
        requires few { length tree ≤ most_paths }
        ensures value { result ≡ begun into tree }
        ensures made { IsMade result }
    {
        TreeCopy {
            alloc,
            into,
            tree,
            phase: TreePhase::Begin,
        }
    }

    /// The lock under which the next step must stand.
    pub fn needs(&self) -> Need
        ensures { result ≡ needs.Nothing }
    {
        Need::Nothing
    }

    /// At most so many steps are left; each byte that isn't copied counts as one, and a file that isn't begun as the longest.
    pub fn left(&self) -> u128
        ensures value { result ≡ left self.now }
        ensures small { result < 2 ^ 97 }
    {
        let count = self.tree.len() as u128;
        match &self.phase {
            TreePhase::Begin => NODE_STEPS * count,
            TreePhase::Make(number) => NODE_STEPS * (count - *number as u128),
            TreePhase::Copy(number, copying) => {
                NODE_STEPS * (count - (*number as u128 + 1)) + copying.left()
            }
            TreePhase::Ended | TreePhase::Refused => 0,
        }
    }
}
