//! The task that removes what no list names.
ghost use Rattle.std.specs.Prelude.{◌≡◌};
ghost use Rattle.fs_trait.specs.declared.task.Need.TheVariants as need;
ghost use Rattle.deploy_clean.specs.Cleaning.{begun};

mod steps;

use crate::phase::Phase;
use boot_model::DepId;
use fs_trait::Need;
use ost_types::Name;
use std::alloc::Global;
use std::marker::Model;

/// The task that removes the deployments that a list doesn't name, and their origin files, a step at a time. It lists the folder of
/// stateroots, then the deployments of each, and sees to the names in their order. A name that is neither that of a deployment nor of
/// an origin file stays, and so does what is beside the stateroots. It makes no sync.
#[derive(Drop, Debug)]
pub struct CleanTask {
    alloc: Global,
    listed: Vec<DepId>,
    // the names beside those of stateroots that weren't looked at yet, the next one last
    stateroots: Vec<Name>,
    phase: Phase,
}

impl Model for CleanTask {
    ghost use Rattle.std.specs.Prelude.{reverse};
    ghost use Rattle.deploy_clean.specs.Cleaning.{Cleaning, IsMade};

    ghost Value = { Cleaning };

    ghost view = { λ a. record { listed = a.listed.items; stateroots = reverse a.stateroots.items; phase = a.phase } };

    ghost invariant = { λ a. IsMade (record { listed = a.listed.items; stateroots = reverse a.stateroots.items; phase = a.phase }) };
}

impl CleanTask {
    /// Removes all but these deployments.
    pub fn new(alloc: Global, listed: Vec<DepId>) -> CleanTask
        ensures { result ≡ begun listed.items }
    {
        CleanTask {
            alloc,
            listed,
            stateroots: Vec::new(alloc),
            phase: Phase::Begin,
        }
    }

    /// The lock under which the next step must stand: a deployment that is being made isn't listed yet.
    pub fn needs(&self) -> Need
        ensures { result ≡ need.Sysroot }
    {
        Need::Sysroot
    }
}
