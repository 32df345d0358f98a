use ost_forms::TreeItem;
use ost_types::{Csum, FsPath, Name, Text};
use repo_layout::RefName;

/// What names a commit: a ref, or the 64 digits of the commit itself.
#[derive(Drop, Debug)]
pub enum Rev {
    Ref(RefName),
    Commit(Csum),
}

/// A command with its fields.
#[derive(Drop, Debug)]
pub enum Command {
    /// `refs` lists the refs.
    Refs,
    /// `status` lists the deployments that boot.
    Status,
    /// `rev-parse` tells the commit.
    RevParse {
        rev: Rev,
    },
    /// `log` lists the commit, its parent and so on.
    Log {
        rev: Rev,
    },
    /// `ls` lists the path in the commit's tree, and all below it.
    Ls {
        rev: Rev,
        path: FsPath,
    },
    /// `cat` tells what the regular file at the path in the commit's tree holds.
    Cat {
        rev: Rev,
        path: FsPath,
    },
    /// `checkout` lays the commit's tree out as the folder with the name in `/checkout`.
    Checkout {
        rev: Rev,
        name: Name,
    },
    /// `reset` makes the ref name the commit.
    Reset {
        branch: RefName,
        commit: Csum,
    },
    /// `drop` removes the ref.
    DropRef {
        branch: RefName,
    },
    /// `prune` removes the objects that no commit of a ref leads to, nor a parent of one so many commits behind it.
    Prune {
        depth: u32,
    },
    /// `cleanup` removes the deployments that the list doesn't name.
    Cleanup,
    /// `commit` commits the tree, and makes the ref name the commit. Its time is in seconds since 1970.
    Commit {
        branch: RefName,
        tree: Vec<TreeItem>,
        subject: Text,
        body: Text,
        time: u64,
    },
}

/// The fields of a commit as they are written: the tree by its number in the script.
#[derive(Drop, Debug)]
pub struct CommitLine {
    pub branch: RefName,
    pub tree: u32,
    pub subject: Text,
    pub body: Text,
    pub time: u64,
}

/// A command as it is written.
#[derive(Drop, Debug)]
pub enum Written {
    Command(Command),
    Commit(CommitLine),
}

/// Commands that run one after the other.
#[derive(Drop, Debug)]
pub struct Lane {
    pub commands: Vec<Command>,
}
