ghost use Rattle.std.specs.Prelude.{◌≡◌, ◌<◌, ◌^◌};
ghost use Rattle.fs_trait.specs.declared.task.Need.TheVariants as needs;
ghost use Rattle.checkout.specs.CheckoutWork.{Checkout, IsMade, IsPlaced, beginning, left};

mod steps;

use crate::checkout_phase::CheckoutPhase;
use fs_trait::Need;
use ost_types::{FsPath, PathMap};
use std::alloc::Global;
use std::marker::Model;

/// The task that checks out a tree, a step at a time: it makes the folders of the map at a path, and gives the object of each leaf
/// a name there, so that no byte is copied and a regular file is one inode with its object. Where something stands at the path it
/// is refused by its first step. After an error a part of the tree may stand there, and stays.
#[derive(Drop, Debug)]
pub struct CheckoutTask {
    alloc: Global,
    into: FsPath,
    tree: PathMap,
    phase: CheckoutPhase,
}

impl Model for CheckoutTask {
    ghost use Rattle.checkout.specs.CheckoutWork.{Checkout, IsMade};

    ghost Value = { Checkout };

    ghost view = { λ a. record { into = a.into; tree = a.tree; phase = a.phase } };

    ghost invariant = { λ a. IsMade (record { into = a.into; tree = a.tree; phase = a.phase }) };
}

impl CheckoutTask {
    /// Checks the map out at this path.
    pub fn new(alloc: Global, into: FsPath, tree: PathMap) -> CheckoutTask
        requires { IsPlaced into tree }
        ensures value { result ≡ beginning into tree }
        ensures made { IsMade result }
    {
        CheckoutTask {
            alloc,
            into,
            tree,
            phase: CheckoutPhase::Begin,
        }
    }

    /// The lock under which the next step must stand.
    pub fn needs(&self) -> Need
        ensures { result ≡ needs.Nothing }
    {
        Need::Nothing
    }

    /// At most so many steps are left.
    pub fn left(&self) -> u128
        ensures value { result ≡ left self.now }
        ensures small { result < 2 ^ 64 }
    {
        match self.phase {
            CheckoutPhase::Begin => self.tree.len() as u128,
            CheckoutPhase::Make(number) => (self.tree.len() - number) as u128,
            CheckoutPhase::Ended | CheckoutPhase::Refused => 0,
        }
    }
}
