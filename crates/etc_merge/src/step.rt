//! What the merge has at one path.
ghost use Rattle.std.specs.Prelude.{◌≡◌, ◌≢◌, ◌↔◌, IsTrue, Some, None};
ghost use Rattle.std.specs.Option.{option_copied};
ghost use Rattle.ost_types.specs.PathMap.{IsAscending, paths_of};
ghost use Rattle.etc_merge.specs.Entries.{AllAfter, StartsFrom};
ghost use Rattle.etc_merge.specs.Steps.{IsStep, IsUnder, OfCurrent, OfNew};

use crate::entries::{Entry, is_below, node_of};
use crate::kept::{has_kept_below, is_kept};
use crate::next::Next;
use ost_types::{FsPath, NodeName};

/// What the merge has at a path, and the last path that was removed in the current tree with all below it.
#[derive(Clone, Copy)]
pub(crate) struct Step<'a> {
    pub node: Option<&'a NodeName>,
    pub gone: Option<&'a FsPath>,
}

/// Goes on at the next path, where the entries of the base before it are left out.
pub(crate) fn step_at<'a>(base: &[Entry], gone: Option<&'a FsPath>, next: &Next<'a>) -> Step<'a>
    requires base { IsAscending (paths_of base.now) }
    requires starts { StartsFrom next.now.path.now base.now }
    requires current { IsAscending (paths_of next.now.current_left.now) }
    requires after { AllAfter next.now.path.now next.now.current_left.now }
    ensures { IsStep base.now next.now.current_left.now (option_copied gone.entry) next.now.path.now (option_copied next.now.current) (option_copied next.now.new) (option_copied result.node) (option_copied result.gone) }
{
    match next.current {
        Some(node) => Step {
            node: of_current(base, node, next),
            gone,
        },
        None => of_new(base, gone, next),
    }
}

/// At a path of the current tree.
fn of_current<'a>(base: &[Entry], node: &'a NodeName, next: &Next<'a>) -> Option<&'a NodeName>
    requires base { IsAscending (paths_of base.now) }
    requires starts { StartsFrom next.now.path.now base.now }
    requires current { IsAscending (paths_of next.now.current_left.now) }
    requires after { AllAfter next.now.path.now next.now.current_left.now }
    ensures { OfCurrent base.now next.now.current_left.now next.now.path.now node.now (option_copied next.now.new) (option_copied result) }
{
    if is_kept(base, next.path, node) {
        return Some(node);
    }
    if next.new.is_some() {
        return next.new;
    }
    if has_kept_below(base, next.current_left, next.path) {
        Some(node)
    } else {
        None
    }
}

/// At a path that the new tree alone has.
fn of_new<'a>(base: &[Entry], gone: Option<&'a FsPath>, next: &Next<'a>) -> Step<'a>
    requires base { IsAscending (paths_of base.now) }
    requires starts { StartsFrom next.now.path.now base.now }
    ensures { OfNew base.now (option_copied gone.entry) next.now.path.now (option_copied next.now.new) (option_copied result.node) (option_copied result.gone) }
{
    if is_gone(gone, next.path) {
        return Step { node: None, gone };
    }
    match node_of(base, next.path) {
        Some(_) => Step {
            node: None,
            gone: Some(next.path),
        },
        None => Step {
            node: next.new,
            gone,
        },
    }
}

fn is_gone(gone: Option<&FsPath>, path: &FsPath) -> bool
    ensures { IsTrue result ↔ IsUnder (option_copied gone.entry) path.now }
{
    match gone {
        Some(gone) => is_below(gone, path),
        None => false,
    }
}
