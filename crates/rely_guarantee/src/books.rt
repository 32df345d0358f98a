ghost use Rattle.std.specs.Prelude.{◌≡◌};
ghost use Rattle.rely_guarantee.specs.Books.{books_of, listed_in};

use crate::{Event, Halt};
use boot_model::DepId;
use ost_types::{Csum, Name, ObjName};
use repo_layout::{OsName, RefName};

/// A change that lasts.
#[derive(Drop, Debug)]
pub struct Entry {
    pub lane: u8,
    /// The number of the command in its lane.
    pub command: u32,
    pub event: Event,
    /// The file system's clock when the change was acknowledged.
    pub moment: u64,
}

/// A change that is published, or may be, and doesn't last yet.
#[derive(Drop, Debug)]
pub struct Pending {
    pub lane: u8,
    pub command: u32,
    pub event: Event,
}

/// An object that no prune removes while the lane's command runs.
#[derive(Clone, Copy, Debug, PartialEq, Eq)]
pub struct Pin {
    pub lane: u8,
    pub object: ObjName,
}

/// A checkout that a lane's command makes: nobody else writes in its folder.
#[derive(Drop, Debug)]
pub struct Claim {
    pub lane: u8,
    pub name: Name,
}

/// A lane reads the `etc` of the deployment at this place of the list.
#[derive(Clone, Copy, Debug, PartialEq, Eq)]
pub struct Hold {
    pub lane: u8,
    pub place: u8,
}

/// An actor stores an object for a lane.
#[derive(Clone, Copy, Debug, PartialEq, Eq)]
pub struct Share {
    pub actor: u8,
    pub lane: u8,
}

/// An actor has an object of a lane's pull in hand.
#[derive(Clone, Copy, Debug, PartialEq, Eq)]
pub struct Want {
    pub actor: u8,
    pub lane: u8,
    pub object: ObjName,
}

/// A lane uses a deployment.
#[derive(Drop, Debug)]
pub struct Use {
    pub lane: u8,
    pub os: OsName,
    pub commit: Csum,
    pub serial: u32,
}

/// What stood at the opening.
#[derive(Drop, Debug)]
pub struct Start {
    /// The refs, ascending by their names.
    pub refs: Vec<(RefName, Csum)>,
    /// The deployments that boot, the one that boots first in front.
    pub deployments: Vec<DepId>,
}

/// All that the system knows beside the disk: who holds what, and what was changed.
#[derive(Drop, Debug)]
pub struct Books {
    pub shared: Vec<Share>,
    /// The lane that removes objects.
    pub exclusive: Option<u8>,
    /// The lane that publishes a change.
    pub turn: Option<u8>,
    /// The lane that works on the list of deployments.
    pub sysroot: Option<u8>,
    pub holds: Vec<Hold>,
    pub wants: Vec<Want>,
    pub pins: Vec<Pin>,
    /// How many objects were removed of those that the pending change says.
    pub gone: u64,
    pub claims: Vec<Claim>,
    pub uses: Vec<Use>,
    pub history: Vec<Entry>,
    pub pending: Option<Pending>,
    /// How many replies were given.
    pub replies: u32,
    /// How many changing calls are owed before the pending change lasts.
    pub owed: u64,
    /// Why no command goes on, once that is so.
    pub halted: Option<Halt>,
    /// The file system's clock at the opening.
    pub opened: u64,
    /// What stood at the opening.
    pub start: Start,
}

impl Books {
    /// The deployments that boot after all changes that last, the one that boots first in front.
    pub fn deployments(&self) -> &[DepId]
        ensures { result.now ≡ listed_in (books_of self.now) }
    {
        let mut list = self.start.deployments.as_slice();
        for entry in &self.history {
            list = entry.event.list_after(list);
        }
        list
    }
}

/// The file system with the books.
#[derive(Drop)]
pub struct Base<F> {
    pub fs: F,
    pub books: Books,
}
