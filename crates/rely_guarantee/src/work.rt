ghost use Rattle.std.specs.Prelude.{◌≡◌, ℕ, Option, Some, IfOk, IfErr, OnOk, IsErrOf};
ghost use Rattle.fs_trait.specs.declared.types.FsErr.{FsErr};
ghost use Rattle.fs_trait.specs.declared.types.FsErr.TheVariants as err;
ghost use Rattle.ost_types.specs.Path.{Name, Path};
ghost use Rattle.fs_trait.specs.declared.task.StepResult.{StepResult};
ghost use Rattle.fs_trait.specs.View.{View};
ghost use Rattle.fs_trait.specs.Image.{Told};
ghost use Rattle.fs_trait.specs.Seen.{Seen};
ghost use Rattle.fs_trait.specs.Change.{Writes};
ghost use Rattle.fs_trait.specs.Effect.{Elapses, HasCause, Next, OfNone};
ghost use Rattle.rely_guarantee.specs.declared.event.Event.{Event};
ghost use Rattle.rely_guarantee.specs.Books.{Books};
ghost use Rattle.rely_guarantee.specs.Laws.{Kind, Claim, Publish, IsOwing, IsMakeDurable, KeepsRoom, Laws, step_of, owed_by};

use crate::{Event, StepKind};
use fs_trait::{Fs, FsErr, StepResult};
use ost_types::{Name, NoMemory};

/// The running task of a command, as the system sees it.
pub trait CommandTask {
    /// What its next step is to the whole system.
    ghost kind_of: { Self → Kind };

    /// What its next step, taken by this actor, asks of a view that is told, and what it may write.
    ghost needs: { ℕ → Self → View → Type 0 };

    ghost writes_of: { ℕ → Self → View → Path → Seen → Type 0 };

    /// What changes in the task itself.
    ghost stepped: { Self → StepResult (Unit {0}) → Self → Type 0 };

    /// What is so of the view before and after such a step.
    ghost leaves: { Self → StepResult (Unit {0}) → Self → View → View → Type 0 };

    /// Why such a step isn't done, by the view before it.
    ghost refuses: { Self → View → FsErr → Type 0 };

    /// What is so of the view and the books while others act, for a task of this lane.
    ghost facts: { ℕ → Self → View → Books → Type 0 };

    fn kind(&self) -> StepKind
        ensures { result ≡ step_of (kind_of self.now) };

    /// The change that the next step shows.
    fn event(&self) -> Result<Event, NoMemory>
        ensures { (e : Event) → kind_of self.now ≡ Publish e → IfOk result (λ x. x ≡ e) };

    /// The checkout whose folder the next step makes.
    fn claim(&self) -> Result<Name, NoMemory>
        ensures { (name : Name) → kind_of self.now ≡ Claim name → IfOk result (λ x. x ≡ name) };

    /// How many calls are owed, that of the next step among them.
    fn owes(&self) -> u64
        ensures { result ≡ owed_by (kind_of self.now) };

    /// Takes the next step: at most one changing call.
    fn advance<F: Fs>(&mut self, actor: u8, fs: &mut F) -> Result<StepResult<()>, FsErr>
        requires { (v : View) → F.view fs.old ≡ Some v → needs actor self.old v }
        ensures writes { (v : View) → F.view fs.old ≡ Some v → Told (F.view fs.new) (λ w. Writes (writes_of actor self.old v) v w) }
        ensures unchanged { (v : View) → F.view fs.old ≡ Some v → IsErrOf result err.NoMemory → F.view fs.new ≡ Some v }
        ensures time { Elapses (F.clock fs.old) (F.clock fs.new) (F.was fs.old) (F.was fs.new) (F.view fs.new) }
        ensures ticks { IsMakeDurable (kind_of self.old) → OnOk result (Next (F.clock fs.old) (F.clock fs.new)) }
        ensures stepped { IfOk result (λ turn. stepped self.old turn self.new) }
        ensures after { (v : View) → F.view fs.old ≡ Some v → IfOk result (λ turn. Told (F.view fs.new) (λ w. leaves self.old turn self.new v w)) }
        ensures refused { (v : View) → F.view fs.old ≡ Some v → IfErr result (refuses self.old v) }
        ensures cause { HasCause (F.faults fs.old) (F.faults fs.new) result }
        ensures fails { (v : View) → F.view fs.old ≡ Some v → IsOwing (kind_of self.old) → IfErr result OfNone }
        ensures room { KeepsRoom (kind_of self.old) (kind_of self.new) (F.spare fs.old) (F.spare fs.new) result };

    /// What each kind of task proves.
    ghost laws: { Laws kind_of needs writes_of stepped leaves facts };
}
