//! Laws of markings, each as a function whose contract is the law.
ghost use Rattle.std.specs.Prelude.{◌≡◌, List};
ghost use Rattle.ost_types.specs.declared.object.ObjName.{ObjName};
ghost use Rattle.fs_trait.specs.View.{Disk};
ghost use Rattle.store_check.specs.Listing.{AreAll};
ghost use Rattle.prune_mark.specs.Lasting.{ShowSameObjects};
ghost use Rattle.prune_mark.specs.Marking.{Knows, MarksAll, State};

/// What is known of a marking, and what it tells at its end, is so of each disk on which the paths of the objects show the same. So
/// it goes on to be so while others work, as long as no object comes or goes.
pub fn markings_last()
    ensures names { (d e : Disk) (names : List ObjName) → ShowSameObjects d e → AreAll d names → AreAll e names }
    ensures known { (d e : Disk) (roots : List ObjName) (m : State) → ShowSameObjects d e → Knows d roots m → Knows e roots m }
    ensures marked { (d e : Disk) (roots : List ObjName) (m : State) → ShowSameObjects d e → MarksAll d roots m → MarksAll e roots m }
{}
