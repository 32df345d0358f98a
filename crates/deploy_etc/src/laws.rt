//! Laws of what a deployment's `etc` is, each as a clause of a function.
ghost use Rattle.std.specs.Prelude.{◌≡◌, ◌⊎◌, ℕ, List, [], Option, Some, None, Ok, IfSome};
ghost use Rattle.ost_types.specs.Path.{Name, Path};
ghost use Rattle.ost_types.specs.PathMap.{IsAscending, Nodes, node_at, paths_of};
ghost use Rattle.ost_types.specs.declared.node.NodeName.TheVariants.{Leaf};
ghost use Rattle.checkout.specs.CheckoutFolder.{IsTreeMap};
ghost use Rattle.checkout.specs.CheckoutWork.{IsPlaced};
ghost use Rattle.deploy_list.specs.Kernels.{Finds};
ghost use Rattle.deploy_etc.specs.declared.merging.MergeSource.{MergeSource};
ghost use Rattle.deploy_etc.specs.Defaults.{AreDefaults, HasDefaults, defaults_path, etc_in};
ghost use Rattle.deploy_etc.specs.NewEtc.{FitsIn, Gives, StoodAt};

/// A tree of which a kernel is found has a folder at `/usr/etc`. Then its defaults are a tree, and there is room for them in the `etc` of a
/// folder where there is room for the tree in the folder. A tree that has nothing at `/usr/etc` has no defaults, and no two maps are the
/// defaults of one tree.
pub fn defaults_are_placed()
    ensures found { (tree : Nodes) (kver : Name) → IsAscending (paths_of tree) → Finds tree (Ok kver) → HasDefaults tree }
    ensures tree { (tree defaults : Nodes) → IsTreeMap tree → HasDefaults tree → AreDefaults tree defaults → IsTreeMap defaults }
    ensures placed { (into : Path) (tree defaults : Nodes) → IsPlaced into tree → HasDefaults tree → AreDefaults tree defaults → IsPlaced (etc_in into) defaults }
    ensures none { (tree defaults : Nodes) → IsTreeMap tree → node_at tree defaults_path ≡ None → AreDefaults tree defaults → defaults ≡ [] }
    ensures once { (tree one other : Nodes) → IsAscending (paths_of one) → IsAscending (paths_of other) → AreDefaults tree one → AreDefaults tree other → one ≡ other }
{}

/// There is room for the `etc` of a new deployment in a folder where there is room for the defaults and for the `etc` of the source. Each
/// leaf of it stood at its path in the `etc` of the source, or is of the defaults.
pub fn new_etc_can_be_copied()
    ensures placed { (into : Path) (source : Option MergeSource) (defaults etc : Nodes) → IsPlaced into defaults → IfSome source (λ from. FitsIn into from.etc) → Gives source defaults (Ok etc) → IsTreeMap etc → IsPlaced into etc }
    ensures leaves { (source : Option MergeSource) (defaults etc : Nodes) (p : Path) (sum : List ℕ) → Gives source defaults (Ok etc) → node_at etc p ≡ Some (Leaf sum) → StoodAt p (Leaf sum) source ⊎ (node_at defaults p ≡ Some (Leaf sum)) }
{}
