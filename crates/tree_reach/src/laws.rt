//! Laws of the objects of a tree, each as a function whose contract is the law.
ghost use Rattle.std.specs.Prelude.{◌≡◌, ◌⊎◌, ◌↔◌, ℕ, List, Contains};
ghost use Rattle.ost_types.specs.declared.limits.Limits.{Limits};
ghost use Rattle.ost_types.specs.declared.object.Kind.TheVariants.{Commit};
ghost use Rattle.ost_types.specs.declared.object.ObjName.{ObjName};
ghost use Rattle.ost_forms.specs.declared.tree_item.TreeItem.{TreeItem};
ghost use Rattle.ost_objects.specs.Object.{IsNamed};
ghost use Rattle.fs_trait.specs.View.{Disk};
ghost use Rattle.repo_model.specs.Objects.{Stores};
ghost use Rattle.repo_model.specs.Trees.{name_of};
ghost use Rattle.repo_model.specs.Whole.{Complete};
ghost use Rattle.tree_build.specs.Commits.{CommitsTree, HasTree};
ghost use Rattle.tree_build.specs.Objects.{Object, work};
ghost use Rattle.reach.specs.Reach.{Is, Reach};
ghost use Rattle.tree_reach.specs.Trees.{CommitStore, Held, IsCommitOf, IsMadeTree, IsOfTree, IsRootOf, TreeStore};

/// Each object of a tree has its name. From the root exactly they are reached, over these objects alone, also where two of them have one
/// name; from a commit of the tree exactly the commit and they; and so it is on a disk that has all of them.
pub fn trees_reach()
    ensures named { (items : List TreeItem) (o : Object) → Contains (work items) o → IsNamed o.name o.bytes }
    ensures tree { (limits : Limits) (items : List TreeItem) → IsMadeTree limits items → (o : ObjName) → Reach (TreeStore items) (IsRootOf items) o ↔ IsOfTree items o }
    ensures commit { (limits : Limits) (items : List TreeItem) (commit bytes : List ℕ) → IsMadeTree limits items → IsCommitOf items bytes → (o : ObjName) → Reach (CommitStore items commit bytes) (Is (name_of Commit commit)) o ↔ ((o ≡ name_of Commit commit) ⊎ IsOfTree items o) }
    ensures disk { (d : Disk) (limits : Limits) (items : List TreeItem) (commit : List ℕ) → HasTree (Stores d) limits items → CommitsTree (Stores d) items commit → (o : ObjName) → Reach (Stores d) (Is (name_of Commit commit)) o ↔ ((o ≡ name_of Commit commit) ⊎ IsOfTree items o) }
{}

/// A disk that has each object of a commit that is reached over those of its objects that are there has all of them, and the commit is
/// whole.
pub fn trees_are_held()
    ensures all { (d : Disk) (limits : Limits) (items : List TreeItem) (commit bytes : List ℕ) → IsMadeTree limits items → IsCommitOf items bytes → ((o : ObjName) (b : List ℕ) → Reach (Held (Stores d) items commit bytes) (Is (name_of Commit commit)) o → CommitStore items commit bytes o b → Stores d o b) → (o : ObjName) (b : List ℕ) → CommitStore items commit bytes o b → Stores d o b }
    ensures whole { (d : Disk) (limits : Limits) (items : List TreeItem) (commit bytes : List ℕ) → IsMadeTree limits items → IsCommitOf items bytes → ((o : ObjName) (b : List ℕ) → Reach (Held (Stores d) items commit bytes) (Is (name_of Commit commit)) o → CommitStore items commit bytes o b → Stores d o b) → Complete (Stores d) limits commit }
{}
