use ost_types::Csum;
use repo_layout::RefName;

/// Why a ref isn't changed.
#[derive(Drop, Debug)]
pub enum RefRefusal {
    /// A ref is there that can't stand beside this one, the first of them by the bytes of the names: its file is where a
    /// folder on the way to this one has to be, or this one's file would be where a folder on the way to it is.
    RefClash(RefName),
    /// The ref has another value than it was to have.
    RefMoved {
        seen: Option<Csum>,
        now: Option<Csum>,
    },
    /// There is no such ref. A task never answers this.
    NoRef,
}
