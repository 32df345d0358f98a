//! What others may rest on, beside the contracts of the steps.
ghost use Rattle.std.specs.Prelude.{◌≡◌, ◌<◌, ℕ, List, Option, Some};
ghost use Rattle.ost_types.specs.Path.{Name, Path};
ghost use Rattle.fs_trait.specs.View.{View};
ghost use Rattle.fs_trait.specs.Seen.{Seen};
ghost use Rattle.fs_trait.specs.Change.{Writes};
ghost use Rattle.fs_trait.specs.declared.task.StepResult.TheVariants as turn;
ghost use Rattle.repo_layout.specs.BootPaths.{checkout_path};
ghost use Rattle.repo_layout.specs.Place.{place, Checkout};
ghost use Rattle.rely_guarantee.specs.declared.books.Entry.{Entry};
ghost use Rattle.rely_guarantee.specs.declared.books.Pending.{Pending};
ghost use Rattle.rely_guarantee.specs.Books.{Books};
ghost use Rattle.rely_guarantee.specs.Laws.{Claim};
ghost use Rattle.rely_guarantee.specs.SystemInvariant.{Stands};
ghost use Rattle.rely_guarantee.specs.State.{SystemState};
ghost use Rattle.ref_command.specs.Facts.{StagingPathFree};
ghost use Rattle.checkout_command.specs.declared.answer.CheckoutAnswer.{CheckoutAnswer as Answer};
ghost use Rattle.checkout_command.specs.declared.command.CheckoutCommand.{CheckoutCommand as Command};
ghost use Rattle.checkout_command.specs.Asked.{Answers, HasName, IsOfFiles, IsRightFor, asked};
ghost use Rattle.checkout_command.specs.Commands.{IsNew, answer_of, checkout_facts, checkout_kind, checkout_leaves, checkout_left, checkout_stepped, checkout_writes};
ghost use Rattle.checkout_command.specs.Fits.{IsFitting};
ghost use Rattle.checkout_command.specs.Founded.{IsFinishedOf, IsOfFinished};

/// What each answer says of the view before the last step, which is the one after it too; those that speak of the commit's files, where
/// each file that stands there is what its name says. The commit is finished there, unless the answer says that it isn't.
pub fn answers_of_checkouts()
    ensures says { (lane : ℕ) (t new : Command) (v w : View) (b : Books) (a : Answer) → checkout_facts lane t v b → checkout_leaves t (turn.Done tt) new v w → answer_of new ≡ Some a → (w ≡ v) × ((IsOfFiles a → IsRightFor (asked t) v.now) → Answers v.now (asked t) a) }
    ensures finished { (lane : ℕ) (t new : Command) (v w : View) (b : Books) (a : Answer) → checkout_facts lane t v b → checkout_leaves t (turn.Done tt) new v w → answer_of new ≡ Some a → IsOfFinished a → IsFinishedOf (asked t) v }
{}

/// Each step but the last is one of the same command, and leaves fewer, whether the view is told or not; the last gives an answer
/// that such a command may give.
pub fn steps_of_checkouts_fall()
    ensures same { (t new : Command) → checkout_stepped t turn.More new → asked new ≡ asked t }
    ensures falls { (t new : Command) → checkout_stepped t turn.More new → checkout_left new < checkout_left t }
    ensures answers { (t new : Command) → checkout_stepped t (turn.Done tt) new → (a : Answer) × (answer_of new ≡ Some a) × IsFitting (asked t) a }
{}

/// A new command has its facts, and no step leaves a folder where the lane stages.
pub fn lanes_that_check_out()
    ensures begins { (start : SystemState) (entries : List Entry) (pending : Option Pending) (lane : ℕ) (v : View) (b : Books) (t : Command) → Stands start entries pending v → IsNew t → checkout_facts lane t v b }
    ensures own { (actor lane : ℕ) (t : Command) (v w : View) → Writes (checkout_writes actor t v) v w → StagingPathFree lane v → StagingPathFree lane w }
{}

/// All that is written lies in the checkout of the name that was asked for: no object, ref or mark is written.
pub fn checkouts_write_no_objects()
    ensures { (actor : ℕ) (t : Command) (v : View) (p : Path) (s : Seen) → checkout_writes actor t v p s → (name : Name) × (rest : Path) × HasName name (asked t) × (place p ≡ Checkout name rest) }
{}

/// The folder of a checkout is made by the step alone that claims it.
pub fn folders_of_checkouts()
    ensures { (actor : ℕ) (t : Command) (v : View) (name : Name) (s : Seen) → checkout_writes actor t v (checkout_path name) s → (checkout_kind t ≡ Claim name) × HasName name (asked t) }
{}
