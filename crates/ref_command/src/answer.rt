use ost_types::Csum;
use repo_layout::RefName;

/// What a command that looks a commit up or changes a ref answers, once it is done.
#[derive(Drop, Debug)]
pub enum RefAnswer {
    /// The ref was changed.
    Changed,
    /// The commit is there.
    Commit(Csum),
    /// There is no such commit.
    NoCommit(Csum),
    /// Objects of the commit may be missing.
    Partial(Csum),
    /// There is no such ref.
    NoRef,
    /// The ref has changed since the command looked at it: its value then, and its value now.
    RefMoved {
        seen: Option<Csum>,
        now: Option<Csum>,
    },
    /// Another ref stands above or below this one: the least of these by the bytes of its name.
    RefClash(RefName),
}
