//! Laws of what is reached, each as a function whose contract is the law.
ghost use Rattle.std.specs.Prelude.{◌≡◌, ◌≢◌, ◌⊎◌, ◌↔◌, ℕ, List, Contains};
ghost use Rattle.ost_types.specs.declared.limits.Limits.{Limits};
ghost use Rattle.ost_types.specs.declared.node.NodeName.{NodeName};
ghost use Rattle.ost_types.specs.declared.object.Kind.TheVariants.{Commit};
ghost use Rattle.ost_types.specs.declared.object.ObjName.{ObjName};
ghost use Rattle.ost_types.specs.Path.{Path};
ghost use Rattle.ost_forms.specs.Commit.{CommitParts};
ghost use Rattle.fs_trait.specs.View.{Disk};
ghost use Rattle.repo_model.specs.Objects.{Stores, Has};
ghost use Rattle.repo_model.specs.Trees.{HasCommit, Names, TreeShows, name_of};
ghost use Rattle.repo_model.specs.Whole.{Complete};
ghost use Rattle.reach.specs.Reach.{Is, Reach, Refers};

/// What is reached is the least set that has what is begun with and all that its members name. So more is reached from more names,
/// and in a store that has more.
pub fn reach_is_least()
    ensures least { (d : Disk) (from keep : List ObjName) → ((o : ObjName) → Contains from o → Contains keep o) → ((o next : ObjName) → Contains keep o → Refers (Stores d) o next → Contains keep next) → (o : ObjName) → Reach (Stores d) (Contains from) o → Contains keep o }
    ensures more { (d e : Disk) (from to : List ObjName) → ((o : ObjName) → Contains from o → Contains to o) → ((o : ObjName) (b : List ℕ) → Stores d o b → Stores e o b) → (o : ObjName) → Reach (Stores d) (Contains from) o → Reach (Stores e) (Contains to) o }
{}

/// What is reached depends on nothing but the objects that are reached.
pub fn reach_needs()
    ensures stays { (d e : Disk) (from : List ObjName) → ((o : ObjName) (b : List ℕ) → Reach (Stores d) (Contains from) o → Stores d o b → Stores e o b) → (o : ObjName) → Reach (Stores d) (Contains from) o → Reach (Stores e) (Contains from) o }
    ensures same { (d e : Disk) (from : List ObjName) → ((o : ObjName) (b : List ℕ) → Reach (Stores d) (Contains from) o → Stores d o b ↔ Stores e o b) → (o : ObjName) → Reach (Stores d) (Contains from) o ↔ Reach (Stores e) (Contains from) o }
{}

/// From a commit itself is reached, and what the ways down from its root name: exactly that, and so no other commit. Where it is whole,
/// each of these is in the store and reads as its kind.
pub fn commits_reach()
    ensures named { (d : Disk) (commit : List ℕ) (c : CommitParts) → HasCommit (Stores d) commit c → (o : ObjName) → Reach (Stores d) (Is (name_of Commit commit)) o ↔ ((o ≡ name_of Commit commit) ⊎ ((p : Path) × Names (Stores d) c.tree c.meta p o)) }
    ensures alone { (d : Disk) (one o : ObjName) → Reach (Stores d) (Is one) o → (o ≡ one) ⊎ (o.kind ≢ Commit) }
    ensures whole { (d : Disk) (limits : Limits) (commit : List ℕ) → Complete (Stores d) limits commit → (o : ObjName) → Reach (Stores d) (Is (name_of Commit commit)) o → Has (Stores d) limits.content o }
{}

/// Where all objects stay that are reached from a commit, it goes on to show what it showed; and if it is whole it stays so, and shows
/// nothing else.
pub fn commits_stay()
    ensures shows { (d e : Disk) (commit : List ℕ) → ((o : ObjName) (b : List ℕ) → Reach (Stores d) (Is (name_of Commit commit)) o → Stores d o b → Stores e o b) → (p : Path) (n : NodeName) → TreeShows (Stores d) commit p n → TreeShows (Stores e) commit p n }
    ensures whole { (d e : Disk) (limits : Limits) (commit : List ℕ) → ((o : ObjName) (b : List ℕ) → Reach (Stores d) (Is (name_of Commit commit)) o → Stores d o b → Stores e o b) → Complete (Stores d) limits commit → Complete (Stores e) limits commit }
    ensures same { (d e : Disk) (limits : Limits) (commit : List ℕ) → ((o : ObjName) (b : List ℕ) → Reach (Stores d) (Is (name_of Commit commit)) o → Stores d o b → Stores e o b) → Complete (Stores d) limits commit → (p : Path) (n : NodeName) → TreeShows (Stores d) commit p n ↔ TreeShows (Stores e) commit p n }
{}
