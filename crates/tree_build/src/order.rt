//! Whether these are items of a tree, in order.

ghost use Rattle.std.specs.Prelude.{◌≤◌, ◌<◌, ◌↔◌, IsTrue, length};
ghost use Rattle.ost_types.specs.Path.{text_of};
ghost use Rattle.tree_build.specs.Items.{AreItems, FitsBody, IsBefore, IsItem};

use crate::brief::after_path;
use ost_forms::{BodySpec, TreeItem};
use ost_types::{FsPath, is_file_mode, is_folder_mode, is_link_mode};

/// Whether the paths ascend strictly, each has at most 64 names and 1,024 bytes, and each mode is that of what stands there.
pub fn are_items(items: &[TreeItem]) -> bool
    ensures { IsTrue result ↔ AreItems items.now }
{
    let mut at = items.len();
    while at > 0 {
        at -= 1;
        if !is_item(&items[at]) || !is_before(items, at) {
            return false;
        }
    }
    true
}

fn is_item(item: &TreeItem) -> bool
    ensures { IsTrue result ↔ IsItem item.now }
{
    is_short(&item.path) && goes_with(item.meta.mode, &item.body)
}

/// Whether the path is before the next one, if there is one.
fn is_before(items: &[TreeItem], at: usize) -> bool
    requires { at < length items.now }
    ensures { IsTrue result ↔ IsBefore items.now at }
{
    at + 1 == items.len() || items[at].path < items[at + 1].path
}

fn is_short(path: &FsPath) -> bool
    ensures { IsTrue result ↔ ((length path.now ≤ 64) × (length (text_of path.now) ≤ 1024)) }
{
    path.names().len() <= 64 && after_path(1024, path).is_some()
}

/// Whether the mode is that of a folder, a regular file or a link, as the body is, and no link leads nowhere.
fn goes_with(mode: u32, body: &Option<BodySpec>) -> bool
    ensures { IsTrue result ↔ FitsBody mode body.now }
{
    match body {
        None => is_folder_mode(mode),
        Some(BodySpec::Given(_)) | Some(BodySpec::Fill { .. }) => is_file_mode(mode),
        Some(BodySpec::Target(target)) => is_link_mode(mode) && !target.as_slice().is_empty(),
    }
}
