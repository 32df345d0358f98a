use crate::rows::{LogRow, LsRow, StatusRow};
use ost_types::{Bytes, Csum, FsPath};
use repo_layout::RefName;

/// What a command answered. The first eight are those of a command that was done, the next ten refuse it, and the
/// others end it for want of something outside.
#[derive(Drop, Debug)]
pub enum Answer {
    /// It was done, and there is nothing to tell.
    Nothing,
    /// The refs, ascending by their names.
    Refs(Vec<(RefName, Csum)>),
    /// The deployments, the one that boots first in front.
    Status(Vec<StatusRow>),
    /// The name of a commit.
    Commit(Csum),
    /// The commit, its parent and so on.
    Log(Vec<LogRow>),
    /// The path and all below it, ascending.
    Ls(Vec<LsRow>),
    /// What the regular file holds.
    Content(Bytes),
    /// How many objects stay, and how many were removed.
    Pruned {
        kept: usize,
        removed: usize,
    },
    /// There is no such ref.
    NoRef,
    /// There is no such commit.
    NoCommit(Csum),
    /// Objects of the commit may be missing.
    Partial(Csum),
    /// Nothing stands at the path in the commit's tree.
    NoPath(FsPath),
    /// A folder or a symbolic link stands there.
    NotFile(FsPath),
    /// Something stands at the path already.
    DestExists(FsPath),
    /// The ref has changed since the command looked at it: its value then, and its value now.
    RefMoved {
        seen: Option<Csum>,
        now: Option<Csum>,
    },
    /// Another ref stands above or below this one: the least of these by the bytes of its name.
    RefClash(RefName),
    /// The tree that is to be committed isn't one by this path, the least such.
    BadTree(FsPath),
    /// With what is to be stored there would be so many objects, and they may not be.
    TooMany(u64),
    /// Memory was wanted and there was none.
    NoMemory,
    /// A call that reads failed.
    DiskFault,
    /// A call that changes something failed, and with it the run; the count of failed calls then.
    Halted(u64),
    /// Something else than this program changed what stands at the path.
    Outside(FsPath),
}

/// A command's answer with its place among the others.
#[derive(Drop, Debug)]
pub struct Reply {
    pub answer: Answer,
    /// How many changes the history had before the command's first step.
    pub start: u32,
    /// How many it had just after the step that gave the reply.
    pub place: u32,
    /// How many replies had been given before it.
    pub order: u32,
    /// How many replies had been given before the step that took the lock on the list of deployments.
    pub taken: Option<u32>,
}
