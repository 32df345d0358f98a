//! What others may rest on, beside the contracts of the steps.
ghost use Rattle.std.specs.Prelude.{◌≡◌, ◌<◌, ℕ, List, Contains, Some, None};
ghost use Rattle.ost_types.specs.Path.{Path};
ghost use Rattle.fs_trait.specs.declared.task.StepResult.TheVariants as turn;
ghost use Rattle.fs_trait.specs.View.{Disk, View};
ghost use Rattle.fs_trait.specs.Seen.{Seen, Vacant};
ghost use Rattle.repo_layout.specs.Place.{place};
ghost use Rattle.boot_model.specs.declared.item.DepId.{DepId};
ghost use Rattle.boot_read.specs.declared.row.BootRow.{BootRow};
ghost use Rattle.boot_read.specs.Rows.{AreRowsOf};
ghost use Rattle.durable_list.specs.Standing as list;
ghost use Rattle.durable_list.specs.Standing.{HasLoader, ids_of};
ghost use Rattle.durable_deployments.specs.Bounds.{AreBounded};
ghost use Rattle.durable_deployments.specs.Standing as deployment;
ghost use Rattle.rely_guarantee.specs.declared.books.Pin.{Pin as APin};
ghost use Rattle.rely_guarantee.specs.declared.books.Pending.{Pending as Shown};
ghost use Rattle.rely_guarantee.specs.Books.{Books, listed_in};
ghost use Rattle.rely_guarantee.specs.Laws.{Holds};
ghost use Rattle.rely_guarantee.specs.State.{list_in};
ghost use Rattle.rely_guarantee.specs.SystemInvariant.{IsRelistedByHolder};
ghost use Rattle.ref_book.specs.declared.book.RefBook.{RefBook as Refs};
ghost use Rattle.clean_command.specs.declared.answer.CleanAnswer.TheVariants.{Cleaned};
ghost use Rattle.clean_command.specs.declared.command.CleanCommand.{CleanCommand as Command};
ghost use Rattle.clean_command.specs.Commands.{IsCleaned, IsNew, clean_answer, clean_kind, clean_learns, clean_leaves, clean_left, clean_stepped, clean_writes};
ghost use Rattle.clean_command.specs.Facts.{clean_facts};
ghost use Rattle.clean_command.specs.Places.{IsDeployed};

/// A new removal has its facts, and where it is told what is listed it goes on to have them; its next step is to the system what it was.
pub fn lanes_that_clean()
    ensures begins { (lane : ℕ) (t : Command) (v : View) (b : Books) → IsNew t → t.lane ≡ lane → clean_facts lane t v b }
    ensures learns { (refs : Refs) (ids : List DepId) (pins : List APin) (lane : ℕ) (t new : Command) (v : View) (b : Books) → listed_in b ≡ ids → AreBounded v → clean_facts lane t v b → clean_learns refs ids pins t new → clean_facts lane new v b }
    ensures kind { (refs : Refs) (ids : List DepId) (pins : List APin) (t new : Command) → clean_learns refs ids pins t new → clean_kind new ≡ clean_kind t }
{}

/// Each step but the last leaves fewer, whether the view is told or not; the last gives the answer.
pub fn steps_of_cleanings_fall()
    ensures falls { (t new : Command) → clean_stepped t turn.More new → clean_left new < clean_left t }
    ensures learns { (refs : Refs) (ids : List DepId) (pins : List APin) (t new : Command) → clean_learns refs ids pins t new → clean_left new ≡ clean_left t }
    ensures answers { (t new : Command) → clean_stepped t (turn.Done tt) new → clean_answer new ≡ Some Cleaned }
{}

/// Behind the last step nothing stands at the path of a deployment that isn't listed, nor at that of its origin file, or no list is selected.
pub fn answers_of_cleanings()
    ensures { (lane : ℕ) (t new : Command) (v w : View) (b : Books) → clean_facts lane t v b → clean_leaves t (turn.Done tt) new v w → (w ≡ v) × IsCleaned w.now (listed_in b) }
{}

/// What is written goes, and lies in a deployment, or is an origin file; it isn't where the list that boots is read or one of its
/// deployments, nor on the way there. Meanwhile a list is selected, and no other one is published.
pub fn cleanings_spare_what_boots()
    ensures places { (actor lane : ℕ) (t : Command) (v : View) (b : Books) (p : Path) (s : Seen) → clean_facts lane t v b → clean_writes actor t v p s → IsDeployed (place p) × (s ≡ Vacant) }
    ensures list { (actor lane : ℕ) (t : Command) (v : View) (b : Books) (base : Disk) (rows : List BootRow) (p : Path) (s : Seen) → clean_facts lane t v b → listed_in b ≡ ids_of rows → AreRowsOf base rows → clean_writes actor t v p s → ¬ (list.IsOnTheWay base rows p) }
    ensures deployments { (actor lane : ℕ) (t : Command) (v : View) (b : Books) (base : Disk) (rows : List BootRow) (row : BootRow) (p : Path) (s : Seen) → clean_facts lane t v b → listed_in b ≡ ids_of rows → AreRowsOf base rows → Contains rows row → clean_writes actor t v p s → ¬ (deployment.IsOnTheWay row.id row.bootcsum p) }
    ensures selected { (actor lane : ℕ) (t : Command) (v : View) (b : Books) (p : Path) (s : Seen) → clean_facts lane t v b → clean_writes actor t v p s → HasLoader v.now }
    ensures alone { (actor lane : ℕ) (t : Command) (v : View) (b : Books) (p : Path) (s : Seen) (q : Shown) → clean_facts lane t v b → Holds (clean_kind t) lane b → IsRelistedByHolder b → clean_writes actor t v p s → b.pending ≡ Some q → list_in q.event ≡ None }
{}
