ghost use Rattle.std.specs.Prelude.{◌≡◌, ◌⊎◌, ℕ, List, [], ◌++◌, Contains, Some};
ghost use Rattle.ost_types.specs.declared.limits.Limits.{Limits};
ghost use Rattle.ost_types.specs.declared.object.Kind.TheVariants.{Commit};
ghost use Rattle.ost_types.specs.declared.object.ObjName.{ObjName};
ghost use Rattle.ost_objects.specs.Object.{IsNamed};
ghost use Rattle.fs_trait.specs.View.{Disk, View};
ghost use Rattle.fs_trait.specs.Image.{EachImage, IsTree};
ghost use Rattle.fs_trait.specs.Seen.{Seen, Vacant, MayBe, shows};
ghost use Rattle.repo_layout.specs.Paths.{objects_folder_path};
ghost use Rattle.repo_layout.specs.RefFile.{IsSum};
ghost use Rattle.repo_model.specs.Objects.{Stores, Marked, object_in, path_of};
ghost use Rattle.repo_model.specs.Trees.{name_of};
ghost use Rattle.repo_model.specs.Whole.{Complete};
ghost use Rattle.reach.specs.Reach.{Is, Reach};
ghost use Rattle.rely_guarantee.specs.SystemInvariant.{Leads};
ghost use Rattle.rely_guarantee.specs.State.{State};
ghost use Rattle.rely_guarantee.specs.Opening.{IsOpening};
ghost use Rattle.rely_guarantee.specs.Objects.{IsObjectSeen};
ghost use Rattle.rely_guarantee.specs.Lasting.{AlwaysStores, IsRight, IsSafe, Lasts, NeverMarked, Stays, StaysFinished, StaysOn};

use fs_trait::Fs;

/// What an act tells of the objects of the store may be carried over any number of acts, but for what any of them removed.
pub fn runs_outlast<F: Fs>()
    ensures begins { (fs : F) → Lasts [] F.view F.clock F.was fs fs }
    ensures goes_on { (one two : List ObjName) (a b c : F) → Lasts one F.view F.clock F.was a b → Lasts two F.view F.clock F.was b c → Lasts (one ++ two) F.view F.clock F.was a c }
{}

/// The bytes that each crash leaves as an object of their name are left so by each later crash, unless they were removed; so a commit
/// that is whole in such objects stays whole, if nothing that is reached from it was removed.
pub fn stores_that_last()
    ensures safe { (v : View) (name : ObjName) (bytes : List ℕ) → AlwaysStores v name bytes → IsSafe v name }
    ensures always { (v : View) (name : ObjName) (bytes : List ℕ) → Leads v (objects_folder_path name.csum) → EachImage v (λ d. Stores d name bytes) → AlwaysStores v name bytes }
    ensures named { (v : View) (name : ObjName) (bytes : List ℕ) → IsSafe v name → IsRight v name → IsNamed name bytes → ((s : Seen) (b : List ℕ) → MayBe v (path_of name) s → object_in name.kind s ≡ Some b → IsNamed name b → b ≡ bytes) → AlwaysStores v name bytes }
    ensures stored { (out : List ObjName) (v w : View) (name : ObjName) (bytes : List ℕ) → Stays out v w → ¬ (Contains out name) → AlwaysStores v name bytes → AlwaysStores w name bytes }
    ensures left { (out : List ObjName) (v : View) (d : Disk) (name : ObjName) (bytes : List ℕ) → StaysOn out v d → ¬ (Contains out name) → AlwaysStores v name bytes → Stores d name bytes }
    ensures whole { (out : List ObjName) (v w : View) (limits : Limits) (commit : List ℕ) → Stays out v w → ((o : ObjName) → Reach (AlwaysStores v) (Is (name_of Commit commit)) o → ¬ (Contains out o)) → Complete (AlwaysStores v) limits commit → Complete (AlwaysStores w) limits commit }
    ensures finished { (out : List ObjName) (v w : View) (commit : List ℕ) → Stays out v w → ¬ (Contains out (name_of Commit commit)) → StaysFinished v commit → StaysFinished w commit }
    ensures complete { (out : List ObjName) (v : View) (d : Disk) (limits : Limits) (commit : List ℕ) → StaysOn out v d → ((o : ObjName) → Reach (AlwaysStores v) (Is (name_of Commit commit)) o → ¬ (Contains out o)) → Complete (AlwaysStores v) limits commit → Complete (Stores d) limits commit }
{}

/// Each crash leaves what stands on the disk at an opening: an object there is always stored, a commit that is whole there is
/// whole in such objects, and what is right or has no mark there is so after each crash.
pub fn openings_last()
    ensures stored { (start : State) (v : View) (name : ObjName) (bytes : List ℕ) → IsOpening start v → IsTree v.now → Stores v.now name bytes → AlwaysStores v name bytes }
    ensures whole { (start : State) (v : View) (limits : Limits) (commit : List ℕ) → IsOpening start v → IsTree v.now → Complete (Stores v.now) limits commit → Complete (AlwaysStores v) limits commit }
    ensures right { (start : State) (v : View) (name : ObjName) → IsOpening start v → IsSum name.csum → (shows v.now (path_of name) ≡ Vacant) ⊎ IsObjectSeen name.kind name.csum (shows v.now (path_of name)) → IsRight v name }
    ensures unmarked { (start : State) (v : View) (commit : List ℕ) → IsOpening start v → (Marked v.now commit → ⊥) → NeverMarked commit v }
{}
