//! Laws of the store, each as a function whose contract is the law.
ghost use Rattle.std.specs.Prelude.{◌≡◌, ℕ, List};
ghost use Rattle.ost_types.specs.declared.limits.Limits.{Limits};
ghost use Rattle.ost_types.specs.declared.node.NodeName.{NodeName};
ghost use Rattle.ost_types.specs.declared.object.ObjName.{ObjName};
ghost use Rattle.ost_types.specs.Path.{Path};
ghost use Rattle.fs_trait.specs.View.{Disk};
ghost use Rattle.fs_trait.specs.Seen.{shows};
ghost use Rattle.repo_model.specs.Objects.{Stores, IsMap, path_of};
ghost use Rattle.repo_model.specs.Trees.{TreeShows};
ghost use Rattle.repo_model.specs.Whole.{Complete};

/// A disk has at most one object of each name, and two disks that show the same at an object's path have the same object.
pub fn objects_of_disks()
    ensures one { (d : Disk) → IsMap (Stores d) }
    ensures same { (d e : Disk) (name : ObjName) (bytes : List ℕ) → shows e (path_of name) ≡ shows d (path_of name) → Stores d name bytes → Stores e name bytes }
{}

/// A disk that has all objects of another shows all that the other shows of a commit, and a commit that is whole stays so.
pub fn stores_that_grow()
    ensures shows { (d e : Disk) (commit : List ℕ) (p : Path) (n : NodeName) → ((name : ObjName) (b : List ℕ) → Stores d name b → Stores e name b) → TreeShows (Stores d) commit p n → TreeShows (Stores e) commit p n }
    ensures whole { (d e : Disk) (limits : Limits) (commit : List ℕ) → ((name : ObjName) (b : List ℕ) → Stores d name b → Stores e name b) → Complete (Stores d) limits commit → Complete (Stores e) limits commit }
{}
