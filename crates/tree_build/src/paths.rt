//! Whether the items are a tree, by one look back at each.

ghost use Rattle.std.specs.Prelude.{◌≡◌, ◌↔◌, ◌<◌, IsTrue, None, MatchOption, length};
ghost use Rattle.std.specs.Option.{option_copied};
ghost use Rattle.ost_types.specs.Path.{is_in};
ghost use Rattle.tree_build.specs.Items.{AreItems, IsLeastBad, IsTree, GoesOn, StartsAtRoot};
ghost use Rattle.tree_build.specs.Objects.{name_in};

use ost_forms::TreeItem;
use ost_types::{FsPath, Name};

pub(crate) fn is_folder(item: &TreeItem) -> bool
    ensures { IsTrue result ↔ (item.now.body ≡ None) }
{
    item.body.is_none()
}

pub(crate) fn starts_at_root(items: &[TreeItem]) -> bool
    ensures { IsTrue result ↔ StartsAtRoot items.now }
{
    match items.first() {
        Some(first) => first.path.names().is_empty() && is_folder(first),
        None => false,
    }
}

/// The path of the first item, after the first of all, that lies in no folder before it.
pub(crate) fn first_bad(items: &[TreeItem]) -> Option<&FsPath>
    requires items { AreItems items.now }
    requires root { StartsAtRoot items.now }
    ensures { MatchOption result (IsTree items.now) (λ p. IsLeastBad items.now p.now) }
{
    let mut at = 1;
    while at < items.len() {
        if !goes_on(&items[at - 1], &items[at].path) {
            return Some(&items[at].path);
        }
        at += 1;
    }
    None
}

/// Whether the path's folder is the earlier item, or on the way to it.
fn goes_on(earlier: &TreeItem, path: &FsPath) -> bool
    ensures { IsTrue result ↔ GoesOn earlier.now path.now }
{
    let way = earlier.path.names();
    let Some((_, folder)) = path.names().split_last() else {
        return false;
    };
    way.starts_with(folder) && (folder.len() < way.len() || is_folder(earlier))
}

/// The name, where the path is that of a name directly in the folder.
pub(crate) fn name_in<'a>(folder: &FsPath, path: &'a FsPath) -> Option<&'a Name>
    ensures { option_copied result ≡ name_in folder.now path.now }
{
    let Some((name, before)) = path.names().split_last() else {
        return None;
    };
    if before == folder.names() {
        Some(name)
    } else {
        None
    }
}
