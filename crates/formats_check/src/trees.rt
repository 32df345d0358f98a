//! That the calls can be made.

ghost use Rattle.std.specs.Prelude.{◌≡◌, []};

use ost_forms::TreeItem;
use ost_types::{FsPath, Limits};
use std::alloc::Global;
use tree_build::TreeBuild;

fn nothing(alloc: Global) -> Vec<TreeItem>
    ensures { result.items ≡ [] }
{
    Vec::new(alloc)
}

/// No path at all is no tree: `/` is missing.
#[test]
fn nothing_is_no_tree(rt: HostRuntime) {
    let alloc = rt.alloc();
    let build = TreeBuild::new(alloc, nothing(alloc), Limits::standard());
    let root = FsPath::root(alloc);
    assert!(rt; build.bad_path() == Some(&root));
    assert_eq!(rt; build.left(), 0);
}
