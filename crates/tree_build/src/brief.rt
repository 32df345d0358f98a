//! Whether a tree, or what a commit says beside it, is small enough that each object can be made.

ghost use Rattle.std.specs.Prelude.{◌≡◌, ◌≤◌, ◌<◌, ◌+◌, ◌↔◌, IsTrue, MatchOption, All, List, ℕ, length};
ghost use Rattle.ost_types.specs.Text.{IsText};
ghost use Rattle.ost_types.specs.Path.{AreNames, joined};
ghost use Rattle.ost_forms.specs.declared.tree_item.TreeItem.{TreeItem};
ghost use Rattle.ost_forms.specs.Commit.{commit_form, parent_bytes};
ghost use Rattle.tree_build.specs.Items.{AreTyped, IsWide};
ghost use Rattle.tree_build.specs.Objects.{root_of};
ghost use Rattle.tree_build.specs.Makeable.{AreMakeable, IsSmall};
ghost use Rattle.tree_build.specs.Brief.{AreBrief, HasText, HoldsFew, item_size, target_size, text_limit, tree_size, xattrs_size};
ghost use Rattle.tree_build.specs.Commits.{commit_parts};

use crate::build::numbers_of;
use ost_forms::{BodySpec, TreeItem};
use ost_types::{Csum, FsPath, Limits, Text, Xattr};

/// As many bytes as a script may have.
const ROOM: usize = 4_194_304;

/// Whether there are at most `limits.paths` items, no content has more than `limits.content` bytes, and the tree, written out as
/// a line for each item, fits into 4,194,304 bytes beside the contents. A tree of a script is so.
pub fn is_brief(items: &[TreeItem], limits: &Limits) -> bool
    ensures exact { IsTrue result ↔ AreBrief limits.now items.now }
    ensures makeable { IsTrue result → AreMakeable limits.now items.now }
{
    all_fit(items, limits)
}

fn all_fit(items: &[TreeItem], limits: &Limits) -> bool
    ensures exact { IsTrue result ↔ AreBrief limits.now items.now }
    ensures typed { IsTrue result → AreTyped items.now }
    ensures texts { IsTrue result → All (λ i. HasText i.body) items.now }
{
    items.len() <= limits.paths as usize && hold_few(items, limits.content) && fits(items)
}

/// Whether the subject and the body have at most 4,194,304 bytes together. Those of a script have.
pub fn is_brief_message(parent: Option<Csum>, subject: &Text, body: &Text) -> bool
    ensures exact { IsTrue result ↔ length subject.now + length body.now ≤ text_limit }
    ensures small { IsTrue result → (items : List TreeItem) (time : ℕ) → IsSmall (commit_form (commit_parts (root_of items).0 (root_of items).1 parent subject.now body.now time)) }
{
    has_sum(parent);
    let subject = subject.as_slice().len();
    subject <= ROOM && body.as_slice().len() <= ROOM - subject
}

/// A sum has 32 bytes.
fn has_sum(parent: Option<Csum>)
    ensures { length (parent_bytes parent) ≤ 32 }
{
    if let Some(sum) = parent {
        let _bytes = sum.bytes();
    }
}

fn hold_few(items: &[TreeItem], content: u64) -> bool
    ensures { IsTrue result ↔ All (λ i. HoldsFew content i.body) items.now }
{
    for item in items {
        if !holds_few(item, content) {
            return false;
        }
    }
    true
}

fn holds_few(item: &TreeItem, content: u64) -> bool
    ensures { IsTrue result ↔ HoldsFew content item.now.body }
{
    match &item.body {
        Some(BodySpec::Given(bytes)) => bytes.as_slice().len() as u64 <= content,
        Some(BodySpec::Fill { len, .. }) => *len <= content,
        Some(BodySpec::Target(_)) | None => true,
    }
}

fn fits(items: &[TreeItem]) -> bool
    ensures exact { IsTrue result ↔ tree_size items.now ≤ text_limit }
    ensures typed { IsTrue result → AreTyped items.now }
    ensures texts { IsTrue result → All (λ i. HasText i.body) items.now }
{
    let mut room = ROOM;
    for item in items {
        match after_item(room, item) {
            Some(left) => room = left,
            None => return false,
        }
    }
    true
}

/// What is left of the room behind the item, or None where it is too little.
fn after_item(room: usize, item: &TreeItem) -> Option<usize>
    ensures left { MatchOption result (room < item_size item.now) (λ left. room ≡ item_size item.now + left) }
    ensures names { AreNames item.now.path }
    ensures numbers { IsWide item.now.meta }
    ensures text { HasText item.now.body }
{
    let _names = item.path.names();
    numbers_of(&item.meta);
    let target = target_len(item);
    let room = room.checked_sub(8)?;
    let room = after_path(room, &item.path)?;
    let room = after_xattrs(room, item.meta.xattrs.as_slice())?;
    room.checked_sub(target)
}

fn target_len(item: &TreeItem) -> usize
    ensures value { result ≡ target_size item.now.body }
    ensures text { HasText item.now.body }
{
    match &item.body {
        Some(BodySpec::Target(target)) => target.as_slice().len(),
        Some(BodySpec::Given(_)) | Some(BodySpec::Fill { .. }) | None => 0,
    }
}

pub(crate) fn after_path(room: usize, path: &FsPath) -> Option<usize>
    ensures { MatchOption result (room < length (joined path.now)) (λ left. room ≡ length (joined path.now) + left) }
{
    let mut room = room;
    for name in path.names() {
        room = room.checked_sub(1 + name.as_slice().len())?;
    }
    Some(room)
}

fn after_xattrs(room: usize, xattrs: &[Xattr]) -> Option<usize>
    ensures { MatchOption result (room < xattrs_size xattrs.now) (λ left. room ≡ xattrs_size xattrs.now + left) }
{
    let mut room = room;
    for xattr in xattrs {
        room = after_xattr(room, xattr)?;
    }
    Some(room)
}

fn after_xattr(room: usize, xattr: &Xattr) -> Option<usize>
    ensures { MatchOption result (room < length xattr.now.name + length xattr.now.value + 1) (λ left. room ≡ length xattr.now.name + length xattr.now.value + 1 + left) }
{
    let room = room.checked_sub(xattr.name.as_slice().len())?;
    let room = room.checked_sub(xattr.value.as_slice().len())?;
    room.checked_sub(1)
}
