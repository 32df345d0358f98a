//! The laws of the list that boots, as functions whose contracts are the laws.
ghost use Rattle.std.specs.Prelude.{◌≡◌, ◌⊎◌, ◌≤◌, ℕ, List, Some};
ghost use Rattle.ost_types.specs.Path.{Path};
ghost use Rattle.fs_trait.specs.View.{Disk, View};
ghost use Rattle.fs_trait.specs.Image.{EachImage, Image, IsTree};
ghost use Rattle.fs_trait.specs.Seen.{Always, shows};
ghost use Rattle.repo_layout.specs.Place.{place};
ghost use Rattle.fs_trait.specs.Effect.{Elapses};
ghost use Rattle.rely_guarantee.specs.Rely.{IsBoot};
ghost use Rattle.boot_read.specs.declared.row.BootRow.{BootRow};
ghost use Rattle.boot_read.specs.Rows.{AreRowsOf};
ghost use Rattle.durable_list.specs.Standing.{BeginsSwap, EndsSwap, IsOnTheWay, KeepsList, LeavesNoMore, ListStands, ListsSwap, SparesList};

use fs_trait::Fs;

/// Behind a sync of all the list that is read stands; it goes on to over whatever spares it; and each crash leaves it.
pub fn lists_stand()
    ensures begins { (rows : List BootRow) (v : View) → ((p : Path) → Always v p (shows v.now p)) → AreRowsOf v.now rows → ListStands rows v }
    ensures goes_on { (rows : List BootRow) (v w : View) → SparesList v.now rows v w → ListStands rows v → ListStands rows w }
    ensures images { (rows : List BootRow) (v : View) (d : Disk) → IsTree v.now → ListStands rows v → Image v d → AreRowsOf d rows }
{}

/// Each disk that a crash leaves from a moment on has the list: from any that isn't before now, and over each act that spares it.
pub fn lists_stay<F: Fs>()
    ensures begins { (rows : List BootRow) (fs : F) (v : View) (moment : ℕ) → F.view fs ≡ Some v → F.clock fs ≤ moment → ListStands rows v → KeepsList (F.was fs) rows moment v }
    ensures goes_on { (rows : List BootRow) (old new : F) (v w : View) (moment : ℕ) → F.view new ≡ Some w → Elapses (F.clock old) (F.clock new) (F.was old) (F.was new) (F.view new) → SparesList v.now rows v w → KeepsList (F.was old) rows moment v → KeepsList (F.was new) rows moment w }
{}

/// While a list is put in the place of another, each crash leaves one of both: from the rename of one link, over whatever spares both, to the
/// sync behind which the new one stands.
pub fn lists_swap()
    ensures begins { (link : Path) (new : Disk) (before after : List BootRow) (v w : View) → ListStands before v → BeginsSwap link new before after v w → ListsSwap link v.now new before after w }
    ensures spared { (link : Path) (old new : Disk) (before after : List BootRow) (v w : View) → ListsSwap link old new before after v → SparesList old before v w → SparesList new after v w → ListsSwap link old new before after w }
    ensures images { (link : Path) (old new : Disk) (before after : List BootRow) (v : View) (d : Disk) → ListsSwap link old new before after v → Image v d → AreRowsOf d before ⊎ AreRowsOf d after }
    ensures ends { (link : Path) (old new : Disk) (before after : List BootRow) (v w : View) → ListsSwap link old new before after v → EndsSwap link new v w → ListStands after w }
    ensures settles { (link : Path) (old new : Disk) (before after : List BootRow) (v w : View) → ListsSwap link old new before after v → LeavesNoMore v w → EachImage w (λ d. ¬ (AreRowsOf d before)) → ListStands after w }
{}

/// Where the list is read, and on the way there, is what boots, what is deployed, or no place of the layout.
pub fn lists_are_apart()
    ensures { (d : Disk) (rows : List BootRow) (p : Path) → IsOnTheWay d rows p → IsBoot (place p) }
{}
