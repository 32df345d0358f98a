//! What a commit answers.
ghost use Rattle.std.specs.Prelude.{◌≡◌, Some, None};
ghost use Rattle.commit_command.specs.Answers.{built_answer, change_answer};

use commit_build::BuildRefusal;
use ost_types::{Csum, FsPath};
use ref_store::RefRefusal;
use repo_layout::RefName;

#[derive(Drop, Debug)]
pub enum CommitAnswer {
    /// The ref names this commit.
    Commit(Csum),
    /// The least path of the items that lies in no folder of theirs; or the root, where the items have no folder there.
    BadTree(FsPath),
    /// The object that was to be put next would be of this number in the store, one more than the bound.
    TooMany(u64),
    /// The ref has another value than it was to have, which is the commit's parent.
    RefMoved {
        seen: Option<Csum>,
        now: Option<Csum>,
    },
    /// Another ref stands above or below this one: the least of these by the bytes of its name.
    RefClash(RefName),
    /// There is no such ref. A commit never answers this.
    NoRef,
}

/// What it answers where it ends with the build.
pub(crate) fn built_answer(refusal: Option<BuildRefusal>) -> Option<CommitAnswer>
    ensures { result ≡ built_answer refusal }
{
    match refusal {
        None => None,
        Some(BuildRefusal::BadTree(path)) => Some(CommitAnswer::BadTree(path)),
        Some(BuildRefusal::TooMany(number)) => Some(CommitAnswer::TooMany(number)),
    }
}

/// What it answers once the ref was to name the commit.
pub(crate) fn change_answer(
    commit: Csum,
    came: Option<Result<(), RefRefusal>>,
) -> Option<CommitAnswer>
    ensures { result ≡ change_answer commit came }
{
    match came {
        None => None,
        Some(Ok(())) => Some(CommitAnswer::Commit(commit)),
        Some(Err(RefRefusal::RefMoved { seen, now })) => Some(CommitAnswer::RefMoved { seen, now }),
        Some(Err(RefRefusal::RefClash(other))) => Some(CommitAnswer::RefClash(other)),
        Some(Err(RefRefusal::NoRef)) => Some(CommitAnswer::NoRef),
    }
}
