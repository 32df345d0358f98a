//! Laws of what is told of a folder, each as a clause of a function.
ghost use Rattle.std.specs.Prelude.{◌≡◌, ◌++◌, Option, None};
ghost use Rattle.ost_types.specs.Path.{Path};
ghost use Rattle.ost_types.specs.PathMap.{Nodes};
ghost use Rattle.fs_trait.specs.View.{Disk};
ghost use Rattle.repo_layout.specs.Place.{IsOutsideEtc};
ghost use Rattle.checkout_compare.specs.Compare.{HasFar, IsCheckoutOutsideEtc, IsDeployedOutsideEtc, Tells};

/// Of one disk there is one answer, and none is the answer where the folder is the checkout of the tree outside its `etc`, with each
/// name within the bounds of paths; its empty files may be files of their own.
pub fn differences_are_told_once()
    ensures once { (d : Disk) (into : Path) (tree : Nodes) (a b : Option Path) → Tells d into tree a → Tells d into tree b → a ≡ b }
    ensures checkout { (d : Disk) (into : Path) (tree : Nodes) → Tells d into tree None → IsDeployedOutsideEtc d into tree }
    ensures strict { (d : Disk) (into : Path) (tree : Nodes) → IsCheckoutOutsideEtc d into tree → IsDeployedOutsideEtc d into tree }
    ensures none { (d : Disk) (into : Path) (tree : Nodes) → IsDeployedOutsideEtc d into tree → ((p : Path) → IsOutsideEtc p → ¬ (HasFar d (into ++ p))) → Tells d into tree None }
{}
