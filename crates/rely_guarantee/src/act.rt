ghost use Rattle.std.specs.Prelude.{◌≡◌, ◌≢◌, ◌⊎◌, ◌≤◌, ◌<◌, ◌+◌, ℕ, true, [], Option, Some, None, IfOk, IfErr, OnOk, IsErrOf};
ghost use Rattle.fs_trait.specs.declared.types.FsErr.TheVariants.{NoMemory};
ghost use Rattle.fs_trait.specs.View.{View};
ghost use Rattle.fs_trait.specs.Image.{Told};
ghost use Rattle.fs_trait.specs.Change.{Writes};
ghost use Rattle.fs_trait.specs.Effect.{Elapses, HasCause, Next, OfNone};
ghost use Rattle.std.specs.Vec.{vec_len, vec_capacity};
ghost use Rattle.rely_guarantee.specs.declared.event.Event.{Event};
ghost use Rattle.rely_guarantee.specs.declared.kind.Halt.TheVariants as halt;
ghost use Rattle.rely_guarantee.specs.declared.kind.Outcome.TheVariants as Outcome;
ghost use Rattle.fs_trait.specs.declared.types.FsErr.TheVariants as FsErr;
ghost use Rattle.rely_guarantee.specs.Books.{books_of, Free, Frees, HasGrantRoom};
ghost use Rattle.rely_guarantee.specs.Exact.{Opens, Steps, Tells, IsUnbooked, IsHeldBy, IsPublishedBy, IsMadeDurableBy, IsBooked, Causes, IsGivenUp, IsLeft, IsLive, IsRefusedBy, Locks, NoNewShares, gone_in, taken_in, why_of};
ghost use Rattle.rely_guarantee.specs.Lasting.{Lasts};
ghost use Rattle.rely_guarantee.specs.Pinning.{ArePinned, pin_in, without};
ghost use Rattle.rely_guarantee.specs.Claiming.{AreClaimed, claim_in, of_others};
ghost use Rattle.rely_guarantee.specs.Laws.{IsPublish, IsPublished, IsRemove, IsOwing, IsMakeDurable, IsPlain, IsStore, IsTake, IsClaim, KeepsRoom, owed_by, Ready, Runs, IsBy, Stood, Acts, Ends, IsEnd, Claim, Publish, Published, MakeDurable};

use crate::{Base, CommandTask, Event, Halt, Outcome, StepKind, Wants, is_free};
use fs_trait::{Fs, FsErr, StepResult};
use ost_types::Name;

/// Takes a step that isn't owed, once there is room for it and for all calls that are owed.
fn advance_with_room<T: CommandTask, F: Fs>(
    base: &mut Base<F>,
    actor: u8,
    task: &mut T,
) -> Result<StepResult<()>, FsErr>
    requires needs { (v : View) → F.view base.old.fs ≡ Some v → T.needs actor task.old v }
    requires room { base.old.books.owed ≤ F.spare base.old.fs }
    ensures books { base.new ≡ record base.old { fs = base.new.fs } }
    ensures writes { (v : View) → F.view base.old.fs ≡ Some v → Told (F.view base.new.fs) (λ w. Writes (T.writes_of actor task.old v) v w) }
    ensures unchanged { (v : View) → F.view base.old.fs ≡ Some v → IsErrOf result NoMemory → F.view base.new.fs ≡ Some v }
    ensures time { Elapses (F.clock base.old.fs) (F.clock base.new.fs) (F.was base.old.fs) (F.was base.new.fs) (F.view base.new.fs) }
    ensures refused { (v : View) → F.view base.old.fs ≡ Some v → IfErr result (λ e. (e ≡ NoMemory) ⊎ T.refuses task.old v e) }
    ensures cause { HasCause (F.faults base.old.fs) (F.faults base.new.fs) result }
    ensures fails { (v : View) → F.view base.old.fs ≡ Some v → IsOwing (T.kind_of task.old) → IfErr result OfNone }
    ensures stepped { IfOk result (λ turn. T.stepped task.old turn task.new) }
    ensures after { (v : View) → F.view base.old.fs ≡ Some v → IfOk result (λ turn. Told (F.view base.new.fs) (λ w. T.leaves task.old turn task.new v w)) }
    ensures room { base.old.books.owed ≤ F.spare base.new.fs }
    ensures ready { IsPublish (T.kind_of task.old) → OnOk result (owed_by (T.kind_of task.new) ≤ F.spare base.new.fs) }
{
    let Some(calls) = base.books.owed.checked_add(1) else {
        return Err(FsErr::NoMemory);
    };
    base.fs.reserve(calls)?;
    task.advance(actor, &mut base.fs)
}

/// A command ends, and its lane holds nothing any more.
fn end<F>(base: &mut Base<F>, actor: u8, lane: u8)
    ensures ends { Ends actor lane base.old base.new }
    ensures given_up { IsGivenUp lane base.old.books.turn base.new.books.turn × IsGivenUp lane base.old.books.exclusive base.new.books.exclusive × IsGivenUp lane base.old.books.sysroot base.new.books.sysroot }
    ensures shared { NoNewShares base.old.books base.new.books }
    ensures pins { base.new.books.pins.items ≡ without lane base.old.books.pins.items }
    ensures claims { base.new.books.claims.items ≡ of_others lane base.old.books.claims.items }
    ensures live { base.new.books.halted ≡ base.old.books.halted }
    ensures gone { base.new.books.gone ≡ base.old.books.gone }
{
    base.books.release(actor, lane);
}

/// Why no command goes on after a step that answered this.
fn why_of(e: FsErr) -> Halt
    ensures { result ≡ why_of e }
{
    match e {
        FsErr::Failed => Halt::Failed,
        _ => Halt::Strayed,
    }
}

/// A command ends, since its step answered this before it showed anything. After a changing call that failed no command
/// goes on, nor after one that was refused for what stands at its path.
fn refuse<F: Fs>(base: &mut Base<F>, actor: u8, lane: u8, before: u64, e: FsErr) -> Outcome
    ensures ends { Ends actor lane base.old base.new }
    ensures told { IsEnd result base.new }
    ensures answer { IsRefusedBy e result }
    ensures still { result ≡ Outcome.Refused e → e ≡ FsErr.Failed → F.clock base.old.fs ≡ before }
    ensures given_up { IsLeft lane result base.old.books.turn base.new.books.turn × IsLeft lane result base.old.books.exclusive base.new.books.exclusive × IsLeft lane result base.old.books.sysroot base.new.books.sysroot }
    ensures shared { NoNewShares base.old.books base.new.books }
    ensures pins { ArePinned None lane result base.old.books.pins.items base.new.books.pins.items }
    ensures claimed { AreClaimed None lane result base.old.books.claims.items base.new.books.claims.items }
    ensures live { IsLive result base.old.books.halted base.new.books.halted }
    ensures gone { base.new.books.gone ≡ base.old.books.gone }
{
    let goes_on = match e {
        FsErr::NoMemory => true,
        FsErr::Failed => base.fs.clock() == before,
        _ => false,
    };
    if !goes_on {
        let why = why_of(e);
        base.books.halted = Some(why);
        return Outcome::Halted(why);
    }
    end(base, actor, lane);
    Outcome::Refused(e)
}

/// A step that changes nothing that the state speaks of.
fn quiet<T: CommandTask, F: Fs>(base: &mut Base<F>, actor: u8, lane: u8, task: &mut T) -> Outcome
    requires ready { Ready F.view F.clock F.spare F.was (Runs T.kind_of T.facts lane task.old) base.old }
    requires by { IsBy (T.kind_of task.old) actor lane }
    requires plain { IsPlain (T.kind_of task.old) }
    requires stood { Stood (T.kind_of task.old) actor lane (books_of base.old.books) }
    ensures acts { Acts F.view F.clock F.spare F.was actor lane result (Runs T.kind_of T.facts lane task.new) base.old base.new }
    ensures steps { Steps T.stepped task.old result task.new }
    ensures wrote { (v : View) → F.view base.old.fs ≡ Some v → Told (F.view base.new.fs) (λ w. Writes (T.writes_of actor task.old v) v w) }
    ensures tells { Tells T.leaves T.refuses task.old result task.new (F.view base.old.fs) (F.view base.new.fs) }
    ensures goes { result ≢ Outcome.Blocked }
    ensures left { IsLeft lane result base.old.books.turn base.new.books.turn × IsLeft lane result base.old.books.exclusive base.new.books.exclusive × IsLeft lane result base.old.books.sysroot base.new.books.sysroot }
    ensures shared { NoNewShares base.old.books base.new.books }
    ensures pins { ArePinned None lane result base.old.books.pins.items base.new.books.pins.items }
    ensures claimed { AreClaimed None lane result base.old.books.claims.items base.new.books.claims.items }
    ensures booked { IsUnbooked base.old.books base.new.books }
    ensures time { Elapses (F.clock base.old.fs) (F.clock base.new.fs) (F.was base.old.fs) (F.was base.new.fs) (F.view base.new.fs) }
    ensures cause { Causes (F.faults base.old.fs) (F.faults base.new.fs) result }
    ensures live { IsLive result base.old.books.halted base.new.books.halted }
    ensures gone { base.new.books.gone ≡ base.old.books.gone }
{
    let before = base.fs.clock();
    match advance_with_room(base, actor, task) {
        Ok(StepResult::More) => Outcome::More,
        Ok(StepResult::Done(())) => {
            end(base, actor, lane);
            Outcome::Done
        }
        Err(e) => refuse(base, actor, lane, before, e),
    }
}

/// The step that publishes a change.
fn publish<T: CommandTask, F: Fs>(
    base: &mut Base<F>,
    lane: u8,
    command: u32,
    task: &mut T,
) -> Outcome
    requires ready { Ready F.view F.clock F.spare F.was (Runs T.kind_of T.facts lane task.old) base.old }
    requires kind { IsPublish (T.kind_of task.old) }
    ensures acts { Acts F.view F.clock F.spare F.was lane lane result (Runs T.kind_of T.facts lane task.new) base.old base.new }
    ensures steps { Steps T.stepped task.old result task.new }
    ensures wrote { (v : View) → F.view base.old.fs ≡ Some v → Told (F.view base.new.fs) (λ w. Writes (T.writes_of lane task.old v) v w) }
    ensures tells { Tells T.leaves T.refuses task.old result task.new (F.view base.old.fs) (F.view base.new.fs) }
    ensures blocked { result ≡ Outcome.Blocked → (base.new ≡ base.old) × ((Free base.old.books.exclusive lane × Free base.old.books.turn lane) → ⊥) }
    ensures opens { result ≢ Outcome.Blocked → (Free base.old.books.exclusive lane × Free base.old.books.turn lane) }
    ensures locks { Locks (T.kind_of task.old) lane result base.old.books base.new.books }
    ensures pins { ArePinned None lane result base.old.books.pins.items base.new.books.pins.items }
    ensures claimed { AreClaimed None lane result base.old.books.claims.items base.new.books.claims.items }
    ensures booked { (e : Event) → T.kind_of task.old ≡ Publish e → IsPublishedBy lane command e result base.old.books base.new.books }
    ensures time { Elapses (F.clock base.old.fs) (F.clock base.new.fs) (F.was base.old.fs) (F.was base.new.fs) (F.view base.new.fs) }
    ensures cause { Causes (F.faults base.old.fs) (F.faults base.new.fs) result }
    ensures live { IsLive result base.old.books.halted base.new.books.halted }
    ensures gone { base.new.books.gone ≡ gone_in (T.kind_of task.old) result base.old.books.gone }
{
    if !base.books.frees_turn(lane) {
        return Outcome::Blocked;
    }
    let Ok(event) = task.event() else {
        end(base, lane, lane);
        return Outcome::Refused(FsErr::NoMemory);
    };
    if base.books.make_room().is_err() {
        end(base, lane, lane);
        return Outcome::Refused(FsErr::NoMemory);
    }
    publish_event(base, lane, command, event, task)
}

/// So, once nobody else holds it off, and there is room for its entry.
fn publish_event<T: CommandTask, F: Fs>(
    base: &mut Base<F>,
    lane: u8,
    command: u32,
    event: Event,
    task: &mut T,
) -> Outcome
    requires ready { Ready F.view F.clock F.spare F.was (Runs T.kind_of T.facts lane task.old) base.old }
    requires kind { T.kind_of task.old ≡ Publish event }
    requires free { Free base.old.books.exclusive lane × Free base.old.books.turn lane }
    requires entry { vec_len base.old.books.history < vec_capacity base.old.books.history }
    ensures acts { Acts F.view F.clock F.spare F.was lane lane result (Runs T.kind_of T.facts lane task.new) base.old base.new }
    ensures steps { Steps T.stepped task.old result task.new }
    ensures wrote { (v : View) → F.view base.old.fs ≡ Some v → Told (F.view base.new.fs) (λ w. Writes (T.writes_of lane task.old v) v w) }
    ensures tells { Tells T.leaves T.refuses task.old result task.new (F.view base.old.fs) (F.view base.new.fs) }
    ensures goes { result ≢ Outcome.Blocked }
    ensures locks { Locks (T.kind_of task.old) lane result base.old.books base.new.books }
    ensures pins { ArePinned None lane result base.old.books.pins.items base.new.books.pins.items }
    ensures claimed { AreClaimed None lane result base.old.books.claims.items base.new.books.claims.items }
    ensures booked { IsPublishedBy lane command event result base.old.books base.new.books }
    ensures time { Elapses (F.clock base.old.fs) (F.clock base.new.fs) (F.was base.old.fs) (F.was base.new.fs) (F.view base.new.fs) }
    ensures cause { Causes (F.faults base.old.fs) (F.faults base.new.fs) result }
    ensures live { IsLive result base.old.books.halted base.new.books.halted }
    ensures gone { base.new.books.gone ≡ gone_in (T.kind_of task.old) result base.old.books.gone }
{
    match advance_with_room(base, lane, task) {
        Ok(_) => {
            base.books.publish(lane, command, event, task.owes());
            Outcome::More
        }
        Err(FsErr::NoMemory) => {
            end(base, lane, lane);
            Outcome::Refused(FsErr::NoMemory)
        }
        Err(e) => {
            let why = why_of(e);
            base.books.publish(lane, command, event, 0);
            base.books.halted = Some(why);
            Outcome::Halted(why)
        }
    }
}

/// A step between the one that publishes a change and the one that makes it durable.
fn published<T: CommandTask, F: Fs>(base: &mut Base<F>, lane: u8, task: &mut T) -> Outcome
    requires ready { Ready F.view F.clock F.spare F.was (Runs T.kind_of T.facts lane task.old) base.old }
    requires kind { IsPublished (T.kind_of task.old) }
    ensures acts { Acts F.view F.clock F.spare F.was lane lane result (Runs T.kind_of T.facts lane task.new) base.old base.new }
    ensures steps { Steps T.stepped task.old result task.new }
    ensures wrote { (v : View) → F.view base.old.fs ≡ Some v → Told (F.view base.new.fs) (λ w. Writes (T.writes_of lane task.old v) v w) }
    ensures tells { Tells T.leaves T.refuses task.old result task.new (F.view base.old.fs) (F.view base.new.fs) }
    ensures goes { result ≢ Outcome.Blocked }
    ensures locks { Locks (T.kind_of task.old) lane result base.old.books base.new.books }
    ensures pins { ArePinned None lane result base.old.books.pins.items base.new.books.pins.items }
    ensures claimed { AreClaimed None lane result base.old.books.claims.items base.new.books.claims.items }
    ensures booked { IsHeldBy result base.old.books base.new.books }
    ensures time { Elapses (F.clock base.old.fs) (F.clock base.new.fs) (F.was base.old.fs) (F.was base.new.fs) (F.view base.new.fs) }
    ensures cause { Causes (F.faults base.old.fs) (F.faults base.new.fs) result }
    ensures live { IsLive result base.old.books.halted base.new.books.halted }
    ensures gone { base.new.books.gone ≡ base.old.books.gone }
{
    base.books.pay();
    match task.advance(lane, &mut base.fs) {
        Ok(_) => Outcome::More,
        Err(e) => {
            let why = why_of(e);
            base.books.halted = Some(why);
            Outcome::Halted(why)
        }
    }
}

/// A step that takes the next object that is to be removed from its path. That one counts as removed before the call, so also where
/// the call fails.
fn remove<T: CommandTask, F: Fs>(base: &mut Base<F>, lane: u8, task: &mut T) -> Outcome
    requires ready { Ready F.view F.clock F.spare F.was (Runs T.kind_of T.facts lane task.old) base.old }
    requires kind { IsRemove (T.kind_of task.old) }
    ensures acts { Acts F.view F.clock F.spare F.was lane lane result (Runs T.kind_of T.facts lane task.new) base.old base.new }
    ensures steps { Steps T.stepped task.old result task.new }
    ensures wrote { (v : View) → F.view base.old.fs ≡ Some v → Told (F.view base.new.fs) (λ w. Writes (T.writes_of lane task.old v) v w) }
    ensures tells { Tells T.leaves T.refuses task.old result task.new (F.view base.old.fs) (F.view base.new.fs) }
    ensures goes { result ≢ Outcome.Blocked }
    ensures locks { Locks (T.kind_of task.old) lane result base.old.books base.new.books }
    ensures pins { ArePinned None lane result base.old.books.pins.items base.new.books.pins.items }
    ensures claimed { AreClaimed None lane result base.old.books.claims.items base.new.books.claims.items }
    ensures booked { IsHeldBy result base.old.books base.new.books }
    ensures time { Elapses (F.clock base.old.fs) (F.clock base.new.fs) (F.was base.old.fs) (F.was base.new.fs) (F.view base.new.fs) }
    ensures cause { Causes (F.faults base.old.fs) (F.faults base.new.fs) result }
    ensures live { IsLive result base.old.books.halted base.new.books.halted }
    ensures gone { base.new.books.gone ≡ base.old.books.gone + 1 }
{
    base.books.pay_removal();
    match task.advance(lane, &mut base.fs) {
        Ok(_) => Outcome::More,
        Err(e) => {
            let why = why_of(e);
            base.books.halted = Some(why);
            Outcome::Halted(why)
        }
    }
}

/// The step that makes it durable, which acknowledges it.
fn make_durable<T: CommandTask, F: Fs>(base: &mut Base<F>, lane: u8, task: &mut T) -> Outcome
    requires ready { Ready F.view F.clock F.spare F.was (Runs T.kind_of T.facts lane task.old) base.old }
    requires kind { IsMakeDurable (T.kind_of task.old) }
    ensures acts { Acts F.view F.clock F.spare F.was lane lane result (Runs T.kind_of T.facts lane task.new) base.old base.new }
    ensures steps { Steps T.stepped task.old result task.new }
    ensures wrote { (v : View) → F.view base.old.fs ≡ Some v → Told (F.view base.new.fs) (λ w. Writes (T.writes_of lane task.old v) v w) }
    ensures tells { Tells T.leaves T.refuses task.old result task.new (F.view base.old.fs) (F.view base.new.fs) }
    ensures goes { result ≢ Outcome.Blocked }
    ensures locks { Locks (T.kind_of task.old) lane result base.old.books base.new.books }
    ensures pins { ArePinned None lane result base.old.books.pins.items base.new.books.pins.items }
    ensures claimed { AreClaimed None lane result base.old.books.claims.items base.new.books.claims.items }
    ensures booked { IsMadeDurableBy (F.clock base.new.fs) result base.old.books base.new.books }
    ensures time { Elapses (F.clock base.old.fs) (F.clock base.new.fs) (F.was base.old.fs) (F.was base.new.fs) (F.view base.new.fs) }
    ensures cause { Causes (F.faults base.old.fs) (F.faults base.new.fs) result }
    ensures live { IsLive result base.old.books.halted base.new.books.halted }
    ensures gone { base.new.books.gone ≡ base.old.books.gone }
{
    match task.advance(lane, &mut base.fs) {
        Ok(StepResult::Done(())) => {
            let moment = base.fs.clock();
            if !base.books.acknowledge(moment) {
                base.books.halted = Some(Halt::Failed);
                return Outcome::Halted(Halt::Failed);
            }
            end(base, lane, lane);
            Outcome::Done
        }
        Ok(StepResult::More) => Outcome::More,
        Err(e) => {
            let why = why_of(e);
            base.books.pay();
            base.books.halted = Some(why);
            Outcome::Halted(why)
        }
    }
}

/// A step that any actor may take, where nobody removes objects.
fn store<T: CommandTask, F: Fs>(base: &mut Base<F>, actor: u8, lane: u8, task: &mut T) -> Outcome
    requires ready { Ready F.view F.clock F.spare F.was (Runs T.kind_of T.facts lane task.old) base.old }
    requires kind { IsStore (T.kind_of task.old) }
    ensures acts { Acts F.view F.clock F.spare F.was actor lane result (Runs T.kind_of T.facts lane task.new) base.old base.new }
    ensures steps { Steps T.stepped task.old result task.new }
    ensures wrote { (v : View) → F.view base.old.fs ≡ Some v → Told (F.view base.new.fs) (λ w. Writes (T.writes_of actor task.old v) v w) }
    ensures tells { Tells T.leaves T.refuses task.old result task.new (F.view base.old.fs) (F.view base.new.fs) }
    ensures blocked { result ≡ Outcome.Blocked → (base.new ≡ base.old) × (Free base.old.books.exclusive lane → ⊥) }
    ensures opens { result ≢ Outcome.Blocked → Free base.old.books.exclusive lane }
    ensures locks { Locks (T.kind_of task.old) lane result base.old.books base.new.books }
    ensures pins { ArePinned None lane result base.old.books.pins.items base.new.books.pins.items }
    ensures claimed { AreClaimed None lane result base.old.books.claims.items base.new.books.claims.items }
    ensures booked { IsUnbooked base.old.books base.new.books }
    ensures time { Elapses (F.clock base.old.fs) (F.clock base.new.fs) (F.was base.old.fs) (F.was base.new.fs) (F.view base.new.fs) }
    ensures cause { Causes (F.faults base.old.fs) (F.faults base.new.fs) result }
    ensures live { IsLive result base.old.books.halted base.new.books.halted }
    ensures gone { base.new.books.gone ≡ base.old.books.gone }
{
    if !is_free(base.books.exclusive, lane) {
        return Outcome::Blocked;
    }
    quiet(base, actor, lane, task)
}

/// A step that is taken once the lane has these locks.
fn take<T: CommandTask, F: Fs>(base: &mut Base<F>, lane: u8, wants: Wants, task: &mut T) -> Outcome
    requires ready { Ready F.view F.clock F.spare F.was (Runs T.kind_of T.facts lane task.old) base.old }
    requires kind { IsTake wants (T.kind_of task.old) }
    ensures acts { Acts F.view F.clock F.spare F.was lane lane result (Runs T.kind_of T.facts lane task.new) base.old base.new }
    ensures steps { Steps T.stepped task.old result task.new }
    ensures wrote { (v : View) → F.view base.old.fs ≡ Some v → Told (F.view base.new.fs) (λ w. Writes (T.writes_of lane task.old v) v w) }
    ensures tells { Tells T.leaves T.refuses task.old result task.new (F.view base.old.fs) (F.view base.new.fs) }
    ensures blocked { result ≡ Outcome.Blocked → (base.new ≡ base.old) × (Frees wants lane (books_of base.old.books) → ⊥) }
    ensures opens { result ≢ Outcome.Blocked → Frees wants lane (books_of base.old.books) }
    ensures locks { Locks (T.kind_of task.old) lane result base.old.books base.new.books }
    ensures pins { ArePinned wants.pin lane result base.old.books.pins.items base.new.books.pins.items }
    ensures claimed { AreClaimed None lane result base.old.books.claims.items base.new.books.claims.items }
    ensures booked { IsUnbooked base.old.books base.new.books }
    ensures time { Elapses (F.clock base.old.fs) (F.clock base.new.fs) (F.was base.old.fs) (F.was base.new.fs) (F.view base.new.fs) }
    ensures cause { Causes (F.faults base.old.fs) (F.faults base.new.fs) result }
    ensures live { IsLive result base.old.books.halted base.new.books.halted }
    ensures gone { base.new.books.gone ≡ base.old.books.gone }
{
    if !base.books.frees(&wants, lane) {
        return Outcome::Blocked;
    }
    if base.books.make_grant_room().is_err() {
        end(base, lane, lane);
        return Outcome::Refused(FsErr::NoMemory);
    }
    take_free(base, lane, wants, task)
}

/// So, where they are free, and there is room for them. The lock of those that store is held for this step alone.
fn take_free<T: CommandTask, F: Fs>(
    base: &mut Base<F>,
    lane: u8,
    wants: Wants,
    task: &mut T,
) -> Outcome
    requires ready { Ready F.view F.clock F.spare F.was (Runs T.kind_of T.facts lane task.old) base.old }
    requires kind { IsTake wants (T.kind_of task.old) }
    requires free { Frees wants lane (books_of base.old.books) }
    requires room { HasGrantRoom base.old.books }
    ensures acts { Acts F.view F.clock F.spare F.was lane lane result (Runs T.kind_of T.facts lane task.new) base.old base.new }
    ensures steps { Steps T.stepped task.old result task.new }
    ensures wrote { (v : View) → F.view base.old.fs ≡ Some v → Told (F.view base.new.fs) (λ w. Writes (T.writes_of lane task.old v) v w) }
    ensures tells { Tells T.leaves T.refuses task.old result task.new (F.view base.old.fs) (F.view base.new.fs) }
    ensures goes { result ≢ Outcome.Blocked }
    ensures locks { Locks (T.kind_of task.old) lane result base.old.books base.new.books }
    ensures pins { ArePinned wants.pin lane result base.old.books.pins.items base.new.books.pins.items }
    ensures claimed { AreClaimed None lane result base.old.books.claims.items base.new.books.claims.items }
    ensures booked { IsUnbooked base.old.books base.new.books }
    ensures time { Elapses (F.clock base.old.fs) (F.clock base.new.fs) (F.was base.old.fs) (F.was base.new.fs) (F.view base.new.fs) }
    ensures cause { Causes (F.faults base.old.fs) (F.faults base.new.fs) result }
    ensures live { IsLive result base.old.books.halted base.new.books.halted }
    ensures gone { base.new.books.gone ≡ base.old.books.gone }
{
    if !base.books.grant(&wants, lane, lane) {
        base.books.halted = Some(Halt::Failed);
        return Outcome::Halted(Halt::Failed);
    }
    let outcome = quiet(base, lane, lane, task);
    base.books.stop_storing(lane);
    outcome
}

/// The step that makes the folder of a checkout.
fn claim<T: CommandTask, F: Fs>(base: &mut Base<F>, lane: u8, task: &mut T) -> Outcome
    requires ready { Ready F.view F.clock F.spare F.was (Runs T.kind_of T.facts lane task.old) base.old }
    requires kind { IsClaim (T.kind_of task.old) }
    ensures acts { Acts F.view F.clock F.spare F.was lane lane result (Runs T.kind_of T.facts lane task.new) base.old base.new }
    ensures steps { Steps T.stepped task.old result task.new }
    ensures wrote { (v : View) → F.view base.old.fs ≡ Some v → Told (F.view base.new.fs) (λ w. Writes (T.writes_of lane task.old v) v w) }
    ensures tells { Tells T.leaves T.refuses task.old result task.new (F.view base.old.fs) (F.view base.new.fs) }
    ensures goes { result ≢ Outcome.Blocked }
    ensures left { IsLeft lane result base.old.books.turn base.new.books.turn × IsLeft lane result base.old.books.exclusive base.new.books.exclusive × IsLeft lane result base.old.books.sysroot base.new.books.sysroot }
    ensures shared { NoNewShares base.old.books base.new.books }
    ensures pins { ArePinned None lane result base.old.books.pins.items base.new.books.pins.items }
    ensures claimed { AreClaimed (claim_in (T.kind_of task.old)) lane result base.old.books.claims.items base.new.books.claims.items }
    ensures booked { IsUnbooked base.old.books base.new.books }
    ensures time { Elapses (F.clock base.old.fs) (F.clock base.new.fs) (F.was base.old.fs) (F.was base.new.fs) (F.view base.new.fs) }
    ensures cause { Causes (F.faults base.old.fs) (F.faults base.new.fs) result }
    ensures live { IsLive result base.old.books.halted base.new.books.halted }
    ensures gone { base.new.books.gone ≡ base.old.books.gone }
{
    let Ok(name) = task.claim() else {
        end(base, lane, lane);
        return Outcome::Refused(FsErr::NoMemory);
    };
    if base.books.make_claim_room().is_err() {
        end(base, lane, lane);
        return Outcome::Refused(FsErr::NoMemory);
    }
    claim_named(base, lane, name, task)
}

/// So, once there is room for the claim.
fn claim_named<T: CommandTask, F: Fs>(
    base: &mut Base<F>,
    lane: u8,
    name: Name,
    task: &mut T,
) -> Outcome
    requires ready { Ready F.view F.clock F.spare F.was (Runs T.kind_of T.facts lane task.old) base.old }
    requires kind { T.kind_of task.old ≡ Claim name }
    requires room { vec_len base.old.books.claims < vec_capacity base.old.books.claims }
    ensures acts { Acts F.view F.clock F.spare F.was lane lane result (Runs T.kind_of T.facts lane task.new) base.old base.new }
    ensures steps { Steps T.stepped task.old result task.new }
    ensures wrote { (v : View) → F.view base.old.fs ≡ Some v → Told (F.view base.new.fs) (λ w. Writes (T.writes_of lane task.old v) v w) }
    ensures tells { Tells T.leaves T.refuses task.old result task.new (F.view base.old.fs) (F.view base.new.fs) }
    ensures goes { result ≢ Outcome.Blocked }
    ensures left { IsLeft lane result base.old.books.turn base.new.books.turn × IsLeft lane result base.old.books.exclusive base.new.books.exclusive × IsLeft lane result base.old.books.sysroot base.new.books.sysroot }
    ensures shared { NoNewShares base.old.books base.new.books }
    ensures pins { ArePinned None lane result base.old.books.pins.items base.new.books.pins.items }
    ensures claimed { AreClaimed (Some name) lane result base.old.books.claims.items base.new.books.claims.items }
    ensures booked { IsUnbooked base.old.books base.new.books }
    ensures time { Elapses (F.clock base.old.fs) (F.clock base.new.fs) (F.was base.old.fs) (F.was base.new.fs) (F.view base.new.fs) }
    ensures cause { Causes (F.faults base.old.fs) (F.faults base.new.fs) result }
    ensures live { IsLive result base.old.books.halted base.new.books.halted }
    ensures gone { base.new.books.gone ≡ base.old.books.gone }
{
    let before = base.fs.clock();
    match advance_with_room(base, lane, task) {
        Ok(StepResult::More) => {
            if !base.books.note_claim(lane, name) {
                base.books.halted = Some(Halt::Failed);
                return Outcome::Halted(Halt::Failed);
            }
            Outcome::More
        }
        Ok(StepResult::Done(())) => {
            end(base, lane, lane);
            Outcome::Done
        }
        Err(e) => refuse(base, lane, lane, before, e),
    }
}

/// Takes the next step of a lane's task: the lane's own actor, or a helper where the step may be anybody's. A lane's own
/// actor has the number of the lane.
pub fn task_act<T: CommandTask, F: Fs>(
    base: &mut Base<F>,
    actor: u8,
    lane: u8,
    command: u32,
    task: &mut T,
) -> Outcome
    requires ready { Ready F.view F.clock F.spare F.was (Runs T.kind_of T.facts lane task.old) base.old }
    requires by { IsBy (T.kind_of task.old) actor lane }
    ensures acts { Acts F.view F.clock F.spare F.was actor lane result (Runs T.kind_of T.facts lane task.new) base.old base.new }
    ensures steps { Steps T.stepped task.old result task.new }
    ensures wrote { (v : View) → F.view base.old.fs ≡ Some v → Told (F.view base.new.fs) (λ w. Writes (T.writes_of actor task.old v) v w) }
    ensures tells { Tells T.leaves T.refuses task.old result task.new (F.view base.old.fs) (F.view base.new.fs) }
    ensures blocked { result ≡ Outcome.Blocked → (base.new ≡ base.old) × (Opens (T.kind_of task.old) lane (books_of base.old.books) → ⊥) }
    ensures opens { result ≢ Outcome.Blocked → Opens (T.kind_of task.old) lane (books_of base.old.books) }
    ensures locks { Locks (T.kind_of task.old) lane result base.old.books base.new.books }
    ensures pins { ArePinned (pin_in (T.kind_of task.old)) lane result base.old.books.pins.items base.new.books.pins.items }
    ensures claimed { AreClaimed (claim_in (T.kind_of task.old)) lane result base.old.books.claims.items base.new.books.claims.items }
    ensures booked { IsBooked (T.kind_of task.old) lane command (F.clock base.new.fs) result base.old.books base.new.books }
    ensures time { Elapses (F.clock base.old.fs) (F.clock base.new.fs) (F.was base.old.fs) (F.was base.new.fs) (F.view base.new.fs) }
    ensures outlasts { Lasts (taken_in (T.kind_of task.old) (books_of base.old.books)) F.view F.clock F.was base.old.fs base.new.fs }
    ensures cause { Causes (F.faults base.old.fs) (F.faults base.new.fs) result }
    ensures live { IsLive result base.old.books.halted base.new.books.halted }
    ensures gone { base.new.books.gone ≡ gone_in (T.kind_of task.old) result base.old.books.gone }
{
    match task.kind() {
        StepKind::Quiet => quiet(base, actor, lane, task),
        StepKind::Store => store(base, actor, lane, task),
        StepKind::Take(wants) => take(base, lane, wants, task),
        StepKind::Claim => claim(base, lane, task),
        StepKind::Publish => publish(base, lane, command, task),
        StepKind::Published => published(base, lane, task),
        StepKind::Remove => remove(base, lane, task),
        StepKind::MakeDurable => make_durable(base, lane, task),
    }
}
