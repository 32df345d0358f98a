//! What others may rest on, beside the contracts of the steps.
ghost use Rattle.std.specs.Prelude.{◌≡◌, ◌<◌, ℕ, List, Option, Some};
ghost use Rattle.fs_trait.specs.View.{View};
ghost use Rattle.fs_trait.specs.Change.{Writes};
ghost use Rattle.fs_trait.specs.declared.task.StepResult.TheVariants as turn;
ghost use Rattle.rely_guarantee.specs.declared.books.Entry.{Entry};
ghost use Rattle.rely_guarantee.specs.declared.books.Pending.{Pending};
ghost use Rattle.rely_guarantee.specs.Books.{Books};
ghost use Rattle.rely_guarantee.specs.SystemInvariant.{Stands};
ghost use Rattle.rely_guarantee.specs.State.{SystemState};
ghost use Rattle.ref_command.specs.Facts.{StagingPathFree};
ghost use Rattle.read_command.specs.declared.answer.ReadAnswer.{ReadAnswer as Answer};
ghost use Rattle.read_command.specs.declared.command.ReadCommand.{ReadCommand as Command};
ghost use Rattle.read_command.specs.Asked.{Answers, asked};
ghost use Rattle.read_command.specs.Fits.{IsFitting};
ghost use Rattle.read_command.specs.Founded.{IsFinishedOf, IsRead};
ghost use Rattle.read_command.specs.Commands.{IsNew, answer_of, read_facts, read_leaves, read_left, read_stepped, read_writes};

/// What each answer says of the view before the last step, which is the one after it too. The commit is finished there, unless the
/// answer says that it isn't.
pub fn answers_of_reads()
    ensures says { (lane : ℕ) (t new : Command) (v w : View) (b : Books) (a : Answer) → read_facts lane t v b → read_leaves t (turn.Done tt) new v w → answer_of new ≡ Some a → (w ≡ v) × Answers v.now (asked t) a }
    ensures finished { (lane : ℕ) (t new : Command) (v w : View) (b : Books) (a : Answer) → read_facts lane t v b → read_leaves t (turn.Done tt) new v w → answer_of new ≡ Some a → IsRead a → IsFinishedOf (asked t) v }
{}

/// Each step but the last is one of the same command, and leaves fewer, whether the view is told or not; the last gives an answer
/// that such a command may give.
pub fn steps_of_reads_fall()
    ensures same { (t new : Command) → read_stepped t turn.More new → asked new ≡ asked t }
    ensures falls { (t new : Command) → read_stepped t turn.More new → read_left new < read_left t }
    ensures answers { (t new : Command) → read_stepped t (turn.Done tt) new → (a : Answer) × (answer_of new ≡ Some a) × IsFitting (asked t) a }
{}

/// A new command has its facts, and no step leaves a folder where the lane stages.
pub fn lanes_that_read()
    ensures begins { (start : SystemState) (entries : List Entry) (pending : Option Pending) (lane : ℕ) (v : View) (b : Books) (t : Command) → Stands start entries pending v → IsNew t → read_facts lane t v b }
    ensures own { (actor lane : ℕ) (t : Command) (v w : View) → Writes (read_writes actor t v) v w → StagingPathFree lane v → StagingPathFree lane w }
{}
