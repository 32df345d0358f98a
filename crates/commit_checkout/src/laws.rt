//! What reading a commit's tree gives, a checkout asks for; and what a checkout leaves is that tree.
ghost use Rattle.std.specs.Prelude.{List, ℕ};
ghost use Rattle.ost_types.specs.declared.limits.Limits.{Limits};
ghost use Rattle.ost_types.specs.Path.{Path};
ghost use Rattle.ost_types.specs.PathMap.{Nodes, IsPathMap};
ghost use Rattle.fs_trait.specs.View.{Disk};
ghost use Rattle.repo_model.specs.Objects.{Stores};
ghost use Rattle.repo_model.specs.Trees.{TreeShows};
ghost use Rattle.repo_model.specs.Whole.{Complete};
ghost use Rattle.checkout.specs.CheckoutFolder.{HasLeaves, IsCheckout};
ghost use Rattle.checkout.specs.CheckoutWork.{IsPlaced};
ghost use Rattle.commit_checkout.specs.TreeFolder.{HasRoomBelow, IsTreeFolder, IsTreeOf};

/// The map of the tree of a commit that is whole is a tree, and the objects of its leaves are there; so it can be checked out. The
/// folder that is the map then is the commit's tree.
pub fn trees_of_commits()
    ensures placed { (d : Disk) (limits : Limits) (commit : List ℕ) (tree : Nodes) (into : Path) → IsPathMap tree → Complete (Stores d) limits commit → IsTreeOf (Stores d) commit tree → HasRoomBelow into → IsPlaced into tree }
    ensures leaves { (d : Disk) (limits : Limits) (commit : List ℕ) (tree : Nodes) → IsPathMap tree → Complete (Stores d) limits commit → IsTreeOf (Stores d) commit tree → HasLeaves d tree }
    ensures folder { (d e : Disk) (commit : List ℕ) (into : Path) (tree : Nodes) → IsPathMap tree → IsTreeOf (Stores d) commit tree → IsCheckout e into tree → IsTreeFolder e into (TreeShows (Stores d) commit) }
{}
