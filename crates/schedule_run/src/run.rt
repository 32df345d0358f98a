ghost use Rattle.std.specs.Prelude.{◌≡◌, ◌⊎◌, ◌∷◌, [], ℕ, true, Some};
ghost use Rattle.std.specs.List.{repeat};
ghost use Rattle.fs_trait.specs.View.{View};
ghost use Rattle.rely_guarantee.specs.Headline.{Headline};
ghost use Rattle.command.specs.Tasks.{task_spec};
ghost use Rattle.lane_system.specs.declared.ask.Ask.TheVariants as Ask;
ghost use Rattle.lane_system.specs.Booked.{IsReplied};
ghost use Rattle.lane_system.specs.Family.{family, fs_spec};
ghost use Rattle.lane_system.specs.Ranks.{HasEnded};
ghost use Rattle.schedule.specs.Schedule.{acts_of};
ghost use Rattle.schedule_run.specs.Driven.{ActsOf, Driven};

use command::Command;
use fs_watch::Watch;
use lane_system::{Ask, System};
use schedule::Turns;

/// Acts as the schedule says, and then, round after round, until every lane has ended: each of their commands has its reply. An actor
/// that has nothing to do, or waits for another, is passed over.
pub fn run_by<F: Watch, C: Command>(system: &mut System<F, C>, schedule: &[Turns])
    ensures follows { (scheduled : _) × ActsOf (fs_spec F.view F.clock F.spare F.was F.faults F.refused) C.means (acts_of schedule.now) system.old scheduled × Driven (fs_spec F.view F.clock F.spare F.was F.faults F.refused) (family (task_spec C.kind_of C.writes_of C.stepped C.leaves C.refuses C.facts) C.means C.doing) scheduled system.new }
    ensures driven { Driven (fs_spec F.view F.clock F.spare F.was F.faults F.refused) (family (task_spec C.kind_of C.writes_of C.stepped C.leaves C.refuses C.facts) C.means C.doing) system.old system.new }
    ensures replied { IsReplied F.view C.means system.new }
    ensures headline { (v : View) → F.view system.new.base.fs ≡ Some v → Headline F.clock F.was system.new.base v }
    ensures ended { HasEnded system.new }
{
    follow(system, schedule);
    system.drive(&[]);
}

// Acts as the schedule says.
fn follow<F: Watch, C: Command>(system: &mut System<F, C>, schedule: &[Turns])
    ensures driven { Driven (fs_spec F.view F.clock F.spare F.was F.faults F.refused) (family (task_spec C.kind_of C.writes_of C.stepped C.leaves C.refuses C.facts) C.means C.doing) system.old system.new }
    ensures acts { ActsOf (fs_spec F.view F.clock F.spare F.was F.faults F.refused) C.means (acts_of schedule.now) system.old system.new }
{
    for turns in schedule {
        give(system, *turns);
    }
}

// The acts of an actor. Where one does nothing, as those behind it would, they are passed over.
fn give<F: Watch, C: Command>(system: &mut System<F, C>, turns: Turns)
    ensures driven { Driven (fs_spec F.view F.clock F.spare F.was F.faults F.refused) (family (task_spec C.kind_of C.writes_of C.stepped C.leaves C.refuses C.facts) C.means C.doing) system.old system.new }
    ensures acts { ActsOf (fs_spec F.view F.clock F.spare F.was F.faults F.refused) C.means (repeat turns.count (turns.actor ∷ [])) system.old system.new }
{
    for turn in 0..turns.count {
        let ask = system.act(turns.actor);
        if is_rest(ask) {
            return;
        }
    }
}

// Whether an act did nothing.
fn is_rest(ask: Ask) -> bool
    ensures { result ≡ true → (ask ≡ Ask.Blocked) ⊎ (ask ≡ Ask.Ended) }
{
    match ask {
        Ask::Blocked | Ask::Ended => true,
        _ => false,
    }
}
