//! The paths of two trees in one order.
ghost use Rattle.std.specs.Prelude.{◌≡◌, [], MatchOption};
ghost use Rattle.std.specs.Option.{option_copied};
ghost use Rattle.ost_types.specs.PathMap.{IsAscending, paths_of};
ghost use Rattle.etc_merge.specs.Entries.{IsNext};

use crate::entries::Entry;
use ost_types::{FsPath, NodeName};
use std::cmp::Ordering;

/// The first path of the current tree or of the new one, what they have there, and their entries behind it.
#[derive(Clone, Copy)]
pub(crate) struct Next<'a> {
    pub path: &'a FsPath,
    pub current: Option<&'a NodeName>,
    pub new: Option<&'a NodeName>,
    pub current_left: &'a [Entry],
    pub new_left: &'a [Entry],
}

pub(crate) fn next_of<'a>(current: &'a [Entry], new: &'a [Entry]) -> Option<Next<'a>>
    requires current { IsAscending (paths_of current.now) }
    requires new { IsAscending (paths_of new.now) }
    ensures { MatchOption result ((current.now ≡ []) × (new.now ≡ [])) (λ n. IsNext current.now new.now n.path.now (option_copied n.current) (option_copied n.new) n.current_left.now n.new_left.now) }
{
    let Some((first, current_left)) = current.split_first() else {
        let (other, new_left) = new.split_first()?;
        return Some(in_new(other, current, new_left));
    };
    let Some((other, new_left)) = new.split_first() else {
        return Some(in_current(first, current_left, new));
    };
    Some(match first.0.cmp(&other.0) {
        Ordering::Less => in_current(first, current_left, new),
        Ordering::Greater => in_new(other, current, new_left),
        Ordering::Equal => Next {
            path: &first.0,
            current: Some(&first.1),
            new: Some(&other.1),
            current_left,
            new_left,
        },
    })
}

fn in_current<'a>(first: &'a Entry, current_left: &'a [Entry], new_left: &'a [Entry]) -> Next<'a>
    ensures { (result.path.now ≡ first.now.0) × (option_copied result.current ≡ Some first.now.1) × (option_copied result.new ≡ None) × (result.current_left.now ≡ current_left.now) × (result.new_left.now ≡ new_left.now) }
{
    Next {
        path: &first.0,
        current: Some(&first.1),
        new: None,
        current_left,
        new_left,
    }
}

fn in_new<'a>(first: &'a Entry, current_left: &'a [Entry], new_left: &'a [Entry]) -> Next<'a>
    ensures { (result.path.now ≡ first.now.0) × (option_copied result.current ≡ None) × (option_copied result.new ≡ Some first.now.1) × (result.current_left.now ≡ current_left.now) × (result.new_left.now ≡ new_left.now) }
{
    Next {
        path: &first.0,
        current: None,
        new: Some(&first.1),
        current_left,
        new_left,
    }
}
