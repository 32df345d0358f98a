//! What others may rest on, beside the contracts of the steps.
ghost use Rattle.std.specs.Prelude.{◌≡◌, ◌<◌, ◌^◌, ℕ, List, Option, Some, IsSome};
ghost use Rattle.fs_trait.specs.declared.types.FsErr.{FsErr};
ghost use Rattle.fs_trait.specs.Effect.{OfNone};
ghost use Rattle.fs_trait.specs.Image.{IsTree};
ghost use Rattle.fs_trait.specs.View.{View};
ghost use Rattle.fs_trait.specs.Change.{Writes};
ghost use Rattle.fs_trait.specs.Seen.{Seen};
ghost use Rattle.repo_layout.specs.RefFile.{IsSum};
ghost use Rattle.repo_model.specs.Objects.{path_of};
ghost use Rattle.fs_trait.specs.declared.task.StepResult.TheVariants as turn;
ghost use Rattle.rely_guarantee.specs.declared.books.Entry.{Entry};
ghost use Rattle.rely_guarantee.specs.declared.books.Pending.{Pending};
ghost use Rattle.rely_guarantee.specs.declared.event.Event.{Event};
ghost use Rattle.rely_guarantee.specs.State.{SystemState};
ghost use Rattle.rely_guarantee.specs.Books.{Books};
ghost use Rattle.rely_guarantee.specs.Laws.{Publish};
ghost use Rattle.rely_guarantee.specs.SystemInvariant.{Stands};
ghost use Rattle.ref_command.specs.Facts.{StagingPathFree};
ghost use Rattle.commit_command.specs.declared.answer.CommitAnswer.{CommitAnswer};
ghost use Rattle.commit_command.specs.declared.command.CommitCommand.{CommitCommand};
ghost use Rattle.commit_command.specs.Answers.{Begins, Says, ShowsLasting, answer_of};
ghost use Rattle.tree_build.specs.Objects.{Object};
ghost use Rattle.ost_types.specs.declared.object.ObjName.{ObjName};
ghost use Rattle.obj_store.specs.declared.phase.Put.TheVariants.{Stored};
ghost use Rattle.commit_command.specs.Facts.{commit_facts};
ghost use Rattle.commit_command.specs.Held.{AreHeld, HasBehind, StoredThere, WasLacking};
ghost use Rattle.commit_command.specs.Kinds.{commit_kind, commit_leaves, commit_left, commit_refuses, commit_stepped, commit_writes, met_in};

/// No step of a commit leaves a folder where its lane stages, whatever the step answers; and where there is none, and the
/// system's view stands, a new commit has its facts.
pub fn lanes_that_commit()
    ensures own { (actor lane : ℕ) (t : CommitCommand) (v w : View) (b : Books) → commit_facts lane t v b → Writes (commit_writes actor t v) v w → StagingPathFree lane v → StagingPathFree lane w }
    ensures begins { (start : SystemState) (entries : List Entry) (pending : Option Pending) (lane : ℕ) (v : View) (b : Books) (t : CommitCommand) → Stands start entries pending v → StagingPathFree lane v → Begins lane t → commit_facts lane t v b }
{}

/// What a commit that runs has stored or found is pinned for its lane and stands at its path, and is what it goes on to have; no crash
/// leaves it away once it was synced.
pub fn commits_that_run()
    ensures held { (lane : ℕ) (t : CommitCommand) (v : View) (b : Books) → commit_facts lane t v b → AreHeld lane t v b }
    ensures stays { (t new : CommitCommand) (o : Object) → commit_stepped t turn.More new → HasBehind t o → HasBehind new o }
{}

/// A step that stored an object did so where nothing stood at its path, and where the store had room for it by the count that was told.
/// One that may write at an object's path had room, whatever it answers; where it goes on it stored that object, or changed nothing, and
/// the last one changed nothing.
pub fn objects_that_are_stored()
    ensures lacked { (t new : CommitCommand) (v w : View) (name : ObjName) → commit_leaves t turn.More new v w → met_in new.change new.build ≡ Some (name, Stored) → WasLacking t name v }
    ensures room { (actor lane : ℕ) (t : CommitCommand) (v : View) (b : Books) → commit_facts lane t v b → (name : ObjName) (s : Seen) → IsSum name.csum → commit_writes actor t v (path_of name) s → (t.objects < t.build.limits.objects) × (t.build.limits.objects < 2 ^ 32) }
    ensures stored { (actor lane : ℕ) (t new : CommitCommand) (v w : View) (b : Books) → commit_facts lane t v b → commit_leaves t turn.More new v w → (name : ObjName) (s : Seen) → IsSum name.csum → commit_writes actor t v (path_of name) s → StoredThere new name v w }
    ensures done { (actor lane : ℕ) (t new : CommitCommand) (v w : View) (b : Books) → commit_facts lane t v b → commit_leaves t (turn.Done tt) new v w → (name : ObjName) (s : Seen) → IsSum name.csum → commit_writes actor t v (path_of name) s → w ≡ v }
{}

/// Only a commit that lasts is shown under the ref: no crash leaves it or an object of its tree away, or a mark of it.
pub fn shown_commits_last()
    ensures { (lane : ℕ) (t : CommitCommand) (v : View) (b : Books) (e : Event) → commit_facts lane t v b → commit_kind t ≡ Publish e → ShowsLasting e t v }
{}

/// What each answer says of the views before and after the step that gave it; and a commit that is done has one, whether the
/// view is told or not.
pub fn answers_of_a_commit()
    ensures told { (lane : ℕ) (t new : CommitCommand) (v w : View) (b : Books) (a : CommitAnswer) → commit_facts lane t v b → commit_leaves t (turn.Done tt) new v w → answer_of new ≡ Some a → Says a t v w }
    ensures always { (t new : CommitCommand) → commit_stepped t (turn.Done tt) new → IsSome (answer_of new) }
{}

/// Nothing that the others see of a commit depends on the number of objects that it was told.
pub fn facts_without_the_count()
    ensures facts { (lane objects : ℕ) (t : CommitCommand) (v : View) (b : Books) → commit_facts lane t v b → commit_facts lane (record t { objects = objects }) v b }
    ensures kinds { (objects : ℕ) (t : CommitCommand) → commit_kind (record t { objects = objects }) ≡ commit_kind t }
    ensures left { (objects : ℕ) (t : CommitCommand) → commit_left (record t { objects = objects }) ≡ commit_left t }
    ensures answers { (objects : ℕ) (t : CommitCommand) → answer_of (record t { objects = objects }) ≡ answer_of t }
{}

/// Each step but the last leaves fewer steps, whether the view is told or not.
pub fn steps_of_a_commit_fall()
    ensures { (t new : CommitCommand) → commit_stepped t turn.More new → commit_left new < commit_left t }
{}

/// Where the view is told, a commit is refused only by a call that failed or for want of memory.
pub fn told_refusals_of_a_commit()
    ensures { (start : SystemState) (entries : List Entry) (pending : Option Pending) (lane : ℕ) (v : View) (b : Books) (t : CommitCommand) (e : FsErr) → IsTree v.now → Stands start entries pending v → commit_facts lane t v b → commit_refuses t v e → OfNone e }
{}
