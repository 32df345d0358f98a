//! The laws of the store of a running system, as functions whose contracts are the laws.

ghost use Rattle.std.specs.Prelude.{◌≡◌, ◌≢◌, ◌≤◌, ◌+◌, ◌++◌, ℕ, List, [], length, take, Contains, Option, Some, IsSome};
ghost use Rattle.std.specs.List.Sorted.{IsStrictlySortedBy};
ghost use Rattle.ost_types.specs.declared.limits.Limits.{Limits};
ghost use Rattle.ost_types.specs.declared.object.Kind.TheVariants.{Commit};
ghost use Rattle.ost_types.specs.declared.object.ObjName.{ObjName};
ghost use Rattle.ost_types.specs.Path.{Path};
ghost use Rattle.fs_trait.specs.View.{Disk, View, all_synced};
ghost use Rattle.fs_trait.specs.Image.{Image, IsTree};
ghost use Rattle.fs_trait.specs.Seen.{Seen, Vacant, MayBe, bytes_in, shows};
ghost use Rattle.fs_trait.specs.Change.{Left, Writes};
ghost use Rattle.fs_trait.specs.Effect.{Elapses};
ghost use Rattle.repo_layout.specs.declared.folder.Folder.{Folder};
ghost use Rattle.repo_layout.specs.Paths.{config_path, folder_path};
ghost use Rattle.repo_layout.specs.RefFile.{IsSum};
ghost use Rattle.repo_model.specs.Objects.{Stores, path_of};
ghost use Rattle.repo_model.specs.Trees.{name_of};
ghost use Rattle.obj_store.specs.Listing.{name_cmp};
ghost use Rattle.reach.specs.Lines.{Reachable};
ghost use Rattle.reach.specs.Marking.{AreDoomed};
ghost use Rattle.store_check.specs.Good.{IsGoodStore};
ghost use Rattle.store_check.specs.Listing.{AreAll, HasFew};
ghost use Rattle.rely_guarantee.specs.Books.{Books, Spared, listed_in};
ghost use Rattle.rely_guarantee.specs.Lasting.{Stays};
ghost use Rattle.rely_guarantee.specs.Opening.{IsOpening};
ghost use Rattle.rely_guarantee.specs.Rely.{Interference};
ghost use Rattle.rely_guarantee.specs.Removing.{IsGuarded, IsRoot};
ghost use Rattle.rely_guarantee.specs.State.{State};
ghost use Rattle.rely_guarantee.specs.SystemInvariant.{Leads};
ghost use Rattle.durable_store.specs.Brought.{NoHashCollisionOn};
ghost use Rattle.durable_store.specs.Keeping.{IsGoodDisk, KeepsGood};
ghost use Rattle.durable_store.specs.Known.{KeepsKnown, KnownBytes, MayHoldOnly, NoHashCollision};
ghost use Rattle.durable_store.specs.Removals.{AreDifferent, AreKept, Except, IsRemoval, IsSettled};
ghost use Rattle.durable_store.specs.Standing.{AreListed, IsNeverThere, StoreStands};
ghost use Rattle.durable_store.specs.Writing.{Grows, KeepsStore};

use crate::{Storing, Writing};
use fs_trait::Fs;

/// After the opening of a disk with a good store it stands so, and it goes on to over each step whose writes keep it, where objects
/// that are safe stay. Where a commit's object stands then, it is a file.
pub fn stores_stand<B: Storing, S: Writing>()
    ensures begins { (state : State) (v : View) (limits : Limits) (names : List ObjName) → IsOpening state v → IsTree v.now → IsGoodStore limits v.now → AreAll v.now names → B.config (shows v.now config_path) → StoreStands limits B.brings B.config names v }
    ensures goes_on { (limits : Limits) (names : List ObjName) (v w : View) → Stays [] v w → Writes S.writes v w → KeepsStore limits B.brings v S.writes → StoreStands limits B.brings B.config names v → (next : List ObjName) × Grows S.writes w names next × StoreStands limits B.brings B.config next w }
    ensures files { (limits : Limits) (names : List ObjName) (v : View) (commit : List ℕ) (s : Seen) → StoreStands limits B.brings B.config names v → IsSum commit → MayBe v (path_of (name_of Commit commit)) s → s ≢ Vacant → IsSome (bytes_in s) }
{}

/// At an opening the names are as few as the objects of the disk, and none comes to them in a step that changes nothing.
pub fn names_of_stores<S: Writing>()
    ensures begins { (limits : Limits) (names : List ObjName) (d : Disk) → IsGoodStore limits d → AreAll d names → length names ≤ limits.objects }
    ensures still { (v : View) (names next : List ObjName) → AreListed names v → Grows S.writes v names next → next ≡ names }
{}

/// What a crash leaves of a store that stands so is good, and has as few objects as names. So an opening finds nothing wrong with it.
pub fn images_of_stores<B: Storing>()
    ensures few { (limits : Limits) (names : List ObjName) (v : View) (d : Disk) (most : ℕ) → StoreStands limits B.brings B.config names v → Image v d → length names ≤ most → HasFew d most }
    ensures good { (limits : Limits) (names : List ObjName) (v : View) (d : Disk) → StoreStands limits B.brings B.config names v → length names ≤ limits.objects → ((f : Folder) → Leads v (folder_path f)) → Image v d → IsGoodDisk limits B.brings B.config d }
    ensures store { (limits : Limits) (d : Disk) → IsGoodDisk limits B.brings B.config d → NoHashCollisionOn B.brings d → IsGoodStore limits d }
{}

/// Each disk that a crash leaves from a moment on is good: from any that isn't before now, and over each act.
pub fn stores_stay_good<F: Fs, B: Storing>()
    ensures begins { (limits : Limits) (names : List ObjName) (fs : F) (v : View) (moment : ℕ) → F.view fs ≡ Some v → F.clock fs ≤ moment → StoreStands limits B.brings B.config names v → length names ≤ limits.objects → ((f : Folder) → Leads v (folder_path f)) → KeepsGood (F.was fs) limits B.brings B.config names moment v }
    ensures goes_on { (limits : Limits) (names next : List ObjName) (old new : F) (v w : View) (moment : ℕ) → F.view new ≡ Some w → Elapses (F.clock old) (F.clock new) (F.was old) (F.was new) (F.view new) → KeepsGood (F.was old) limits B.brings B.config names moment v → StoreStands limits B.brings B.config next w → length next ≤ limits.objects → ((f : Folder) → Leads w (folder_path f)) → KeepsGood (F.was new) limits B.brings B.config next moment w }
{}

/// So it is where more is brought; and a step whose writes keep what a store keeps goes on to.
pub fn more_is_brought<F: Fs, B: Storing, C: Storing, S: Writing>()
    ensures stands { (limits : Limits) (names : List ObjName) (v : View) → ((name : ObjName) (bytes : List ℕ) → B.brings name bytes → C.brings name bytes) → StoreStands limits B.brings B.config names v → StoreStands limits C.brings B.config names v }
    ensures keeps { (fs : F) (limits : Limits) (names : List ObjName) (moment : ℕ) (v : View) → ((name : ObjName) (bytes : List ℕ) → B.brings name bytes → C.brings name bytes) → KeepsGood (F.was fs) limits B.brings B.config names moment v → KeepsGood (F.was fs) limits C.brings B.config names moment v }
    ensures writes { (limits : Limits) (v : View) → ((name : ObjName) (bytes : List ℕ) → B.brings name bytes → C.brings name bytes) → KeepsStore limits B.brings v S.writes → KeepsStore limits C.brings v S.writes }
{}

/// A disk ever holds the objects of the opening and what is brought: so it goes on to be over each step that brings what it writes. So one
/// premise serves every disk and every view: that no two of these byte strings have one name.
pub fn bytes_are_known<F: Fs, B: Storing>()
    ensures goes_on { (opening : Disk) (old new : F) (v w : View) (moment : ℕ) → F.view new ≡ Some w → Elapses (F.clock old) (F.clock new) (F.was old) (F.was new) (F.view new) → MayHoldOnly (KnownBytes opening B.brings) w → KeepsKnown (F.was old) (KnownBytes opening B.brings) moment v → KeepsKnown (F.was new) (KnownBytes opening B.brings) moment w }
    ensures left { (opening : Disk) (fs : F) (v : View) (moment t : ℕ) (d : Disk) → NoHashCollision opening B.brings → KeepsKnown (F.was fs) (KnownBytes opening B.brings) moment v → moment ≤ t → Left (F.was fs) t d → NoHashCollisionOn B.brings d }
    ensures seen { (opening : Disk) (fs : F) (v u : View) (moment t : ℕ) → NoHashCollision opening B.brings → KeepsKnown (F.was fs) (KnownBytes opening B.brings) moment v → moment ≤ t → F.was fs t u → NoHashCollisionOn B.brings u.now }
{}

/// While objects are removed the store stands, with the same names. What isn't reachable may be removed; of that a commit goes at any
/// time, another object where no crash brings back a commit that names it, and a mark whose commit no crash leaves.
pub fn removals_stand<B: Storing, S: Writing>()
    ensures begins { (doomed roots : List ObjName) (depth : ℕ) (b : Books) (v : View) (lane : ℕ) → ((o : ObjName) → IsRoot b v lane o → Contains roots o) → AreDoomed (Stores v.now) (Reachable (Stores v.now) (Contains roots) depth) (Contains doomed) → AreKept (Except doomed) b v lane }
    ensures unguarded { (doomed : List ObjName) (b : Books) (v : View) (lane : ℕ) (o : ObjName) → AreKept (Except doomed) b v lane → Contains doomed o → ¬ (IsGuarded b v lane o) }
    ensures goes_on { (limits : Limits) (names doomed : List ObjName) (b : Books) (lane : ℕ) (v w : View) → AreKept (Except doomed) b v lane → Writes S.writes v w → IsRemoval (Except doomed) v S.writes → StoreStands limits B.brings B.config names v → StoreStands limits B.brings B.config names w }
    ensures kept { (doomed : List ObjName) (b b' : Books) (actor lane : ℕ) (v w : View) → Spared actor lane b b' → listed_in b' ≡ listed_in b → Writes S.writes v w → IsRemoval (Except doomed) v S.writes → AreKept (Except doomed) b v lane → AreKept (Except doomed) b' w lane }
    ensures settled { (doomed : List ObjName) (v w : View) → Writes S.writes v w → IsRemoval (Except doomed) v S.writes → IsSettled (Except doomed) v → IsSettled (Except doomed) w }
    ensures never { (doomed : List ObjName) (v w : View) (commit : List ℕ) → Writes S.writes v w → IsRemoval (Except doomed) v S.writes → IsNeverThere v commit → IsNeverThere w commit }
    ensures gone { (doomed : List ObjName) (v w : View) (p : Path) → Writes S.writes v w → IsRemoval (Except doomed) v S.writes → shows v.now p ≡ Vacant → shows w.now p ≡ Vacant }
{}

/// What is known meanwhile stays so over the acts of others, while the lane that removes holds the lock.
pub fn removals_outlast_others()
    ensures kept { (doomed : List ObjName) (b b' : Books) (actor other lane : ℕ) (v w : View) → lane ≢ other → b.exclusive ≡ Some lane → Interference actor other v b w b' → AreKept (Except doomed) b v lane → AreKept (Except doomed) b' w lane }
    ensures settled { (doomed : List ObjName) (b b' : Books) (actor other lane : ℕ) (v w : View) → lane ≢ other → b.exclusive ≡ Some lane → Interference actor other v b w b' → IsSettled (Except doomed) v → IsSettled (Except doomed) w }
    ensures never { (b b' : Books) (actor other lane : ℕ) (v w : View) (commit : List ℕ) → lane ≢ other → b.exclusive ≡ Some lane → Interference actor other v b w b' → IsSum commit → IsNeverThere v commit → IsNeverThere w commit }
    ensures same { (b b' : Books) (actor other lane : ℕ) (v w : View) (o : ObjName) → lane ≢ other → b.exclusive ≡ Some lane → Interference actor other v b w b' → IsSum o.csum → shows w.now (path_of o) ≡ shows v.now (path_of o) }
{}

/// A sync of all behind the removal of commits settles what is kept. Behind the last removal it leaves the names of the objects that
/// stand, and they are as many fewer as were removed.
pub fn removals_settle<B: Storing>()
    ensures begins { (doomed : List ObjName) (v : View) → ((o : ObjName) → Contains doomed o → o.kind ≡ Commit → shows v.now (path_of o) ≡ Vacant) → IsSettled (Except doomed) (all_synced v) }
    ensures never { (v : View) (commit : List ℕ) → shows v.now (path_of (name_of Commit commit)) ≡ Vacant → IsNeverThere (all_synced v) commit }
    ensures stands { (limits : Limits) (names next : List ObjName) (v : View) → AreAll v.now next → StoreStands limits B.brings B.config names v → StoreStands limits B.brings B.config next (all_synced v) }
    ensures listed { (names : List ObjName) (v : View) → AreListed names v → (next : List ObjName) × AreAll v.now next }
    ensures different { (commits others : List ObjName) (n : ℕ) → IsStrictlySortedBy name_cmp commits → IsStrictlySortedBy name_cmp others → ((o : ObjName) → Contains commits o → ¬ (Contains others o)) → AreDifferent (take n (commits ++ others)) }
    ensures fewer { (names next gone : List ObjName) (v : View) → AreListed names v → AreAll v.now next → AreDifferent gone → ((o : ObjName) → Contains gone o → Contains names o × (shows v.now (path_of o) ≡ Vacant)) → length next + length gone ≤ length names }
{}
