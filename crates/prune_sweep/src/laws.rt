//! Laws of sweeps, each as a function whose contract is the law.
ghost use Rattle.std.specs.Prelude.{◌≡◌, ◌+◌, ℕ, List, [], length, Contains};
ghost use Rattle.ost_types.specs.declared.object.ObjName.{ObjName};
ghost use Rattle.fs_trait.specs.declared.types.Value.TheVariants.{Absent};
ghost use Rattle.fs_trait.specs.View.{Disk, View, named};
ghost use Rattle.repo_layout.specs.RefFile.{IsSum};
ghost use Rattle.repo_model.specs.Objects.{Stores, path_of};
ghost use Rattle.reach.specs.Removed.{IsPruned};
ghost use Rattle.store_check.specs.Listing.{AreAll, AreBelow};
ghost use Rattle.prune_mark.specs.Lasting.{ShowSameObjects};
ghost use Rattle.prune_sweep.specs.Planned.{IsPlanned};
ghost use Rattle.prune_sweep.specs.Steps.{IsNext};
ghost use Rattle.prune_sweep.specs.Sweeping.{Sweeping};
ghost use Rattle.prune_sweep.specs.Swept.{AreNamed, IsSwept, Unlinks};

/// Once each folder is listed, the names are those of all objects; and what is listed so far is so on each disk on which the paths of
/// objects show the same.
pub fn listings_end()
    ensures begins { (d : Disk) → AreBelow d 0 [] }
    ensures ends { (d : Disk) (names : List ObjName) → AreBelow d 256 names → AreAll d names }
    ensures lasts { (d e : Disk) (first : ℕ) (names : List ObjName) → ShowSameObjects d e → AreBelow d first names → AreBelow e first names }
{}

/// Of what a sweep is to remove so much is gone as it says: from the beginning on, over each step that unlinks an object, and over
/// whatever shows the same at the paths of objects. Once all of it is gone, exactly what wasn't reachable when it was planned is gone.
pub fn sweeps_are_exact()
    ensures begins { (planned : Disk) (from : List ObjName) (depth : ℕ) (pins : List ObjName) (r : Sweeping) → IsPlanned planned from depth pins r → IsSwept planned r.removed 0 planned }
    ensures unlinks { (v : View) (o : ObjName) → IsSum o.csum → Unlinks o v.now (named (path_of o) Absent v).now }
    ensures goes_on { (planned d e : Disk) (from : List ObjName) (depth : ℕ) (pins : List ObjName) (r : Sweeping) (o : ObjName) → IsPlanned planned from depth pins r → IsNext r o → Unlinks o d e → IsSwept planned r.removed r.gone d → IsSwept planned r.removed (r.gone + 1) e }
    ensures lasts { (planned d e : Disk) (removed : List ObjName) (gone : ℕ) → ShowSameObjects d e → IsSwept planned removed gone d → IsSwept planned removed gone e }
    ensures ends { (planned d : Disk) (from : List ObjName) (depth : ℕ) (pins : List ObjName) (r : Sweeping) → IsPlanned planned from depth pins r → AreNamed planned → IsSwept planned r.removed (length r.removed) d → IsPruned (Stores planned) (Stores d) (Contains from) depth (Contains r.removed) }
{}
