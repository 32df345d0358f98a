ghost use Rattle.std.specs.Prelude.{◌≡◌};
ghost use Rattle.rely_guarantee.specs.State.{list_in, next_list};

use boot_model::DepId;
use ost_types::{Csum, ObjNames};
use repo_layout::RefName;

/// A change that a command makes, as the stored history has it.
#[derive(Drop, Debug)]
pub enum Event {
    /// A ref names this commit. So far it named `seen`, or there was no such ref.
    SetRef {
        name: RefName,
        seen: Option<Csum>,
        commit: Csum,
    },
    /// A ref goes, which named `seen`.
    DropRef {
        name: RefName,
        seen: Csum,
    },
    /// A prune removed objects. No ref changes.
    Pruned {
        /// How many parents of each root it kept.
        depth: u32,
        /// The commits that refs named.
        roots: ObjNames,
        /// What running commands held.
        held: ObjNames,
        /// What it removed, in this order.
        removed: ObjNames,
    },
    /// Another list of deployments boots. No ref changes.
    SetDeployments {
        change: DeploymentChange,
        /// The list from then on, the one that boots first in front.
        list: Vec<DepId>,
    },
}

/// How a list of deployments comes from the one before it (OSTree manual, "Deployments").
#[derive(Drop, Debug)]
pub enum DeploymentChange {
    /// A new one comes to its front. Behind it stay those of other stateroots, the first of its own, and these, which are in use.
    Deploy { used: Vec<DepId> },
    /// The one at this place goes.
    Undeploy { place: u8 },
}

impl Event {
    /// The list that boots after this change, where that one did before it.
    pub fn list_after<'a>(&'a self, list: &'a [DepId]) -> &'a [DepId]
        ensures { result.now ≡ next_list (list_in self.now) list.now }
    {
        match self {
            Event::SetDeployments { change: _, list } => list.as_slice(),
            _ => list,
        }
    }
}
