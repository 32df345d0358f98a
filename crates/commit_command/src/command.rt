ghost use Rattle.std.specs.Prelude.{◌≤◌, length};
ghost use Rattle.repo_layout.specs.RefName.{parts_of};

use crate::Naming;
use commit_build::{BuildRefusal, CommitTask};
use repo_layout::RefName;
use std::alloc::Global;

/// `commit`: builds the objects of a tree and the commit, whose parent is the value of the ref so far, makes all outlast a
/// crash, and then lets the ref name the commit.
#[derive(Drop, Debug)]
pub struct CommitCommand {
    pub(crate) alloc: Global,
    pub(crate) build: CommitTask,
    pub(crate) name: RefName,
    pub(crate) objects: u32,
    // the step before this one was one of putting the same object
    pub(crate) pinned: bool,
    pub(crate) refusal: Option<BuildRefusal>,
    pub(crate) change: Option<Naming>,
    ghost parts: { length (parts_of name) ≤ 12 },
}
