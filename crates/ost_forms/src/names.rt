//! Names in order, byte by byte.

ghost use Rattle.std.specs.Prelude.{◌↔◌, IsTrue, map};
ghost use Rattle.ost_forms.specs.DirTree.{IsAscending, AreApart};

use std::cmp::Ordering;

/// Whether each name comes before those after it.
pub(crate) fn is_ascending(names: &[&[u8]]) -> bool
    ensures { IsTrue result ↔ IsAscending (map (λ b. b.now) names.now) }
{
    let mut at = 1;
    while at < names.len() {
        if !names[at - 1].cmp(names[at]).is_lt() {
            return false;
        }
        at += 1;
    }
    true
}

/// Whether no name is in both lists.
pub(crate) fn are_apart(left: &[&[u8]], right: &[&[u8]]) -> bool
    requires left { IsAscending (map (λ b. b.now) left.now) }
    requires right { IsAscending (map (λ b. b.now) right.now) }
    ensures { IsTrue result ↔ AreApart (map (λ b. b.now) left.now) (map (λ b. b.now) right.now) }
{
    let mut i = 0;
    let mut j = 0;
    while i < left.len() && j < right.len() {
        match left[i].cmp(right[j]) {
            Ordering::Less => i += 1,
            Ordering::Equal => return false,
            Ordering::Greater => j += 1,
        }
    }
    true
}
