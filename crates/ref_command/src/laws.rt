//! What others may rest on, beside the contracts of the steps.
ghost use Rattle.std.specs.Prelude.{◌≡◌, ◌≢◌, ◌⊎◌, ◌<◌, ℕ, List, Option, Some, None, IsSome};
ghost use Rattle.fs_trait.specs.declared.types.FsErr.{FsErr};
ghost use Rattle.fs_trait.specs.Effect.{OfNone};
ghost use Rattle.fs_trait.specs.Image.{IsTree};
ghost use Rattle.ost_types.specs.Path.{Path};
ghost use Rattle.fs_trait.specs.View.{View};
ghost use Rattle.fs_trait.specs.Seen.{Seen};
ghost use Rattle.fs_trait.specs.Change.{Writes};
ghost use Rattle.fs_trait.specs.declared.task.StepResult.TheVariants as turn;
ghost use Rattle.repo_layout.specs.Place.{Ref, Stage, place};
ghost use Rattle.ref_command.specs.declared.answer.RefAnswer.{RefAnswer};
ghost use Rattle.rely_guarantee.specs.declared.books.Entry.{Entry};
ghost use Rattle.rely_guarantee.specs.declared.books.Pending.{Pending};
ghost use Rattle.rely_guarantee.specs.State.{SystemState};
ghost use Rattle.rely_guarantee.specs.Books.{Books};
ghost use Rattle.rely_guarantee.specs.declared.event.Event.TheVariants.{SetRef};
ghost use Rattle.rely_guarantee.specs.Lasting.{StaysFinished};
ghost use Rattle.rely_guarantee.specs.Laws.{Publish};
ghost use Rattle.rely_guarantee.specs.Rely.{Interference};
ghost use Rattle.rely_guarantee.specs.SystemInvariant.{Stands};
ghost use Rattle.ref_command.specs.declared.command.RefCommand.{RefCommand};
ghost use Rattle.ref_command.specs.Facts.{StagingPathFree};
ghost use Rattle.ref_command.specs.Commands.{answer_of, command_facts, command_kind, command_leaves, command_left, command_refuses, command_stepped, command_writes};
ghost use Rattle.ref_command.specs.Answers.{Begins, Says};

/// Of a lane without a task it is known that no folder stands where it stages. Nothing that others do changes that, nor a step
/// of its own tasks, whatever the step answers; and with it a new task has its facts.
pub fn lanes_without_a_task()
    ensures others { (actor lane mine : ℕ) (v w : View) (b b' : Books) → mine < 16 → mine ≢ actor → mine ≢ lane → Interference actor lane v b w b' → StagingPathFree mine v → StagingPathFree mine w }
    ensures own { (actor lane : ℕ) (t : RefCommand) (v w : View) (b : Books) → command_facts lane t v b → Writes (command_writes actor t v) v w → StagingPathFree lane v → StagingPathFree lane w }
    ensures begins { (start : SystemState) (entries : List Entry) (pending : Option Pending) (lane : ℕ) (v : View) (b : Books) (t : RefCommand) → Stands start entries pending v → StagingPathFree lane v → Begins lane t → command_facts lane t v b }
{}

/// What each answer says of the view before the step that gave it.
pub fn answers_of_commands()
    ensures { (lane : ℕ) (t new : RefCommand) (v w : View) (b : Books) (a : RefAnswer) → command_facts lane t v b → command_leaves t (turn.Done tt) new v w → answer_of new ≡ Some a → Says a t v w }
{}

/// The step that sets a ref sets it to a commit that lasts: its object is left by each crash, and no mark of it is. All writes are
/// at the lane's staging path and among the refs.
pub fn resets_are_founded()
    ensures founded { (lane : ℕ) (t : RefCommand) (v : View) (b : Books) (name : List ℕ) (seen : Option (List ℕ)) (commit : List ℕ) → command_facts lane t v b → command_kind t ≡ Publish (SetRef name seen commit) → StaysFinished v commit }
    ensures places { (actor lane : ℕ) (t : RefCommand) (v : View) (b : Books) → command_facts lane t v b → (p : Path) (s : Seen) → command_writes actor t v p s → (place p ≡ Stage lane) ⊎ ((other : List ℕ) × (place p ≡ Ref other)) }
{}

/// Each step but the last leaves fewer steps, whether the view is told or not.
pub fn steps_fall()
    ensures always { (t new : RefCommand) → command_stepped t turn.More new → command_left new < command_left t }
    ensures told { (lane : ℕ) (t new : RefCommand) (v : View) (b : Books) → command_facts lane t v b → command_stepped t turn.More new → command_left new < command_left t }
{}

/// Where the view is told, a command is refused only by a call that failed or for want of memory.
pub fn told_refusals()
    ensures { (start : SystemState) (entries : List Entry) (pending : Option Pending) (lane : ℕ) (v : View) (b : Books) (t : RefCommand) (e : FsErr) → IsTree v.now → Stands start entries pending v → command_facts lane t v b → command_refuses t v e → OfNone e }
{}
