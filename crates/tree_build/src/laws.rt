//! The law of a committed tree, as a function whose contract is the law.

ghost use Rattle.std.specs.Prelude.{◌↔◌, ℕ, List};
ghost use Rattle.ost_types.specs.declared.limits.Limits.{Limits};
ghost use Rattle.ost_types.specs.declared.node.NodeName.{NodeName};
ghost use Rattle.ost_types.specs.Path.{Path};
ghost use Rattle.ost_forms.specs.declared.tree_item.TreeItem.{TreeItem};
ghost use Rattle.fs_trait.specs.View.{Disk};
ghost use Rattle.repo_model.specs.Objects.{Stores};
ghost use Rattle.repo_model.specs.Trees.{TreeShows};
ghost use Rattle.repo_model.specs.Whole.{Complete};
ghost use Rattle.tree_build.specs.Commits.{HasTree, CommitsTree, ItemShows};

/// A disk that has all objects of a tree and a commit of it has the commit whole, and shows the items as its tree.
pub fn tree_is_whole()
    ensures whole { (d : Disk) (limits : Limits) (items : List TreeItem) (commit : List ℕ) → HasTree (Stores d) limits items → CommitsTree (Stores d) items commit → Complete (Stores d) limits commit }
    ensures shows { (d : Disk) (limits : Limits) (items : List TreeItem) (commit : List ℕ) → HasTree (Stores d) limits items → CommitsTree (Stores d) items commit → (p : Path) (n : NodeName) → TreeShows (Stores d) commit p n ↔ ItemShows items p n }
{}
