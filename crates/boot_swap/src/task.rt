ghost use Rattle.std.specs.Prelude.{◌≡◌};
ghost use Rattle.boot_model.specs.Items.{AreItems};
ghost use Rattle.boot_swap.specs.Swap.{IsBegun, left, need_in, parts};

mod steps;

use crate::phase::Phase;
use boot_compare::{ChooseTask, Swap};
use boot_model::BootItem;
use fs_trait::Need;
use ost_types::FsPath;
use std::alloc::Global;
use std::marker::Model;

/// The task that lets a new list of deployments boot, a step at a time. Where the entries that stand in the selected version are those
/// of the new list, only the links change: they are made in the version's other sub-version, and its link is renamed. Else
/// entries and links are made in the other version, and the boot loader's link is renamed. A crash at any moment leaves the old
/// list or the new one.
#[derive(Drop, Debug)]
pub struct SwapTask {
    alloc: Global,
    items: Vec<BootItem>,
    // that of the link that shows the list, from when it is made ready
    folder: Option<FsPath>,
    phase: Phase,
}

impl Model for SwapTask {
    ghost use Rattle.boot_swap.specs.Swap.{Swapping, IsMade, keeps_folder};

    ghost Value = { Swapping };

    ghost view = { λ a. record { items = a.items.items; phase = a.phase } };

    ghost invariant = { λ a. keeps_folder a.phase a.folder × IsMade (record { items = a.items.items; phase = a.phase }) };
}

impl SwapTask {
    /// Lets this list boot, the first member first.
    pub fn new(alloc: Global, items: Vec<BootItem>) -> SwapTask
        requires { AreItems items.items }
        ensures { IsBegun items.items result }
    {
        SwapTask {
            alloc,
            items,
            folder: None,
            phase: Phase::Choose(ChooseTask::new(alloc)),
        }
    }

    /// The lock under which the next step must stand.
    pub fn needs(&self) -> Need
        ensures { result ≡ need_in self.now.phase }
    {
        match &self.phase {
            Phase::ShowLink(Swap::Sub(_), _, link) | Phase::ShowLoader(_, link) => {
                if link.shows() {
                    Need::RefLock
                } else {
                    Need::Sysroot
                }
            }
            Phase::SyncFolder(_) => Need::RefLock,
            Phase::Ended => Need::Nothing,
            _ => Need::Sysroot,
        }
    }

    /// How many parts are left, the one that is being done among them.
    pub fn parts(&self) -> u8
        ensures { result ≡ parts self.now.phase }
    {
        match &self.phase {
            Phase::Choose(choose) => 11 + choose.parts(),
            Phase::BeginEntries(_) => 11,
            Phase::Entries(..) => 10,
            Phase::LookLink(_) => 9,
            Phase::Links(..) => 8,
            Phase::Barrier(Swap::Sub(_), _) => 7,
            Phase::BeginLink(..) => 6,
            Phase::ShowLink(..) => 5,
            Phase::Barrier(Swap::Loader(_), _) => 4,
            Phase::BeginLoader(_) => 3,
            Phase::ShowLoader(..) => 2,
            Phase::SyncFolder(_) => 1,
            Phase::Ended => 0,
        }
    }

    /// At most so many steps of this part are left.
    pub fn left(&self) -> u128
        ensures { result ≡ left self.now.phase }
    {
        match &self.phase {
            Phase::Choose(choose) => choose.left(),
            Phase::Entries(_, build) | Phase::Links(_, _, build) => build.left(),
            Phase::ShowLink(_, _, link) | Phase::ShowLoader(_, link) => link.left(),
            Phase::Ended => 0,
            _ => 1,
        }
    }
}
