//! The laws of edits, each as a function whose contract is the law.
ghost use Rattle.std.specs.Prelude.{◌≡◌, Result};
ghost use Rattle.ost_types.specs.Path.{Path};
ghost use Rattle.fs_trait.specs.declared.task.StepResult.{StepResult};
ghost use Rattle.fs_trait.specs.declared.types.FsErr.{FsErr};
ghost use Rattle.fs_trait.specs.View.{Disk, View};
ghost use Rattle.fs_trait.specs.Image.{Image};
ghost use Rattle.fs_trait.specs.Seen.{Seen, MayBe, shows};
ghost use Rattle.fs_trait.specs.Change.{Writes};
ghost use Rattle.host_edit.specs.declared.change.Change.{Change};
ghost use Rattle.host_edit.specs.declared.edit.Edit.{Edit};
ghost use Rattle.host_edit.specs.declared.phase.Phase.TheVariants.{Ended};
ghost use Rattle.host_edit.specs.declared.refusal.EditRefusal.{EditRefusal};
ghost use Rattle.host_edit.specs.Edit.{MayEdit};
ghost use Rattle.host_edit.specs.Editing.{Editing, IsApart, IsStepped, begun};
ghost use Rattle.host_edit.specs.Refusals.{IsRefused};
ghost use Rattle.host_edit.specs.Steps.{Needs, ShowsNew, WritesOf};
ghost use Rattle.host_edit.specs.There.{HasParent};
ghost use Rattle.host_edit.specs.Whole.{IsOldOrNew, IsReady, IsSame, LeadsThere, Lies, Written};

/// A new task needs nothing of the view but what its staging path needs.
pub fn edits_begin()
    ensures { (stage etc : Path) (edit : Edit) (v : View) → MayEdit stage etc edit → IsReady edit stage v.now → Needs (begun stage etc edit) v }
{}

/// Of one disk and one edit one refusal is told at most.
pub fn refusals_are_told_once()
    ensures { (d : Disk) (stage at path : Path) (change : Change) (one other : EditRefusal) → IsApart stage at → IsRefused d at path change one → IsRefused d at path change other → one ≡ other }
{}

/// Where the writes of a step lie.
pub fn edits_lie()
    ensures { (t : Editing) (v : View) (p : Path) (s : Seen) → Needs t v → WritesOf t v p s → Lies t v p s }
{}

/// At any moment a crash leaves at the path what it might have left before the first step, or what the edit says: so it is after what
/// all steps may write, which is what each of them does.
pub fn edits_show_old_or_new()
    ensures steps { (t : Editing) (v w : View) → Needs t v → Writes (WritesOf t v) v w → Writes (Written t) v w }
    ensures same { (old new : Editing) (r : Result (StepResult (Result (Unit {0}) EditRefusal)) FsErr) → IsStepped old r new → IsSame old new }
    ensures on { (old new : Editing) (u v w : View) → IsSame old new → Writes (Written old) u v → Writes (Written new) v w → Writes (Written old) u w }
    ensures names { (t : Editing) (v w : View) (s : Seen) → IsApart t.stage t.at → Writes (Written t) v w → MayBe w t.at s → IsOldOrNew t v s }
    ensures crashes { (t : Editing) (v w : View) (d : Disk) → IsApart t.stage t.at → Writes (Written t) v w → Image w d → HasParent d t.at → IsOldOrNew t v (shows d t.at) }
    ensures leads { (t : Editing) (v w : View) → IsApart t.stage t.at → Writes (Written t) v w → LeadsThere t v → LeadsThere t w }
    ensures sure { (t : Editing) (v w : View) (d : Disk) → IsApart t.stage t.at → LeadsThere t v → Writes (Written t) v w → Image w d → IsOldOrNew t v (shows d t.at) }
{}

/// Behind the last step a crash leaves at the path what the edit says, where it leaves the folder that the path is in.
pub fn edits_outlast()
    ensures parent { (t : Editing) (v : View) (d : Disk) → t.phase ≡ Ended → Needs t v → Image v d → HasParent d t.at → ShowsNew t.change (shows d t.at) }
    ensures sure { (t : Editing) (v : View) (d : Disk) → t.phase ≡ Ended → Needs t v → LeadsThere t v → Image v d → ShowsNew t.change (shows d t.at) }
{}
