//! The laws of a deploy, each as a function whose contract is the law.
ghost use Rattle.ost_types.specs.Path.{Path};
ghost use Rattle.fs_trait.specs.View.{View};
ghost use Rattle.fs_trait.specs.Image.{IsTree};
ghost use Rattle.fs_trait.specs.Seen.{Seen};
ghost use Rattle.fs_trait.specs.Change.{Writes};
ghost use Rattle.deploy_task.specs.Deploying.{Deploying};
ghost use Rattle.deploy_task.specs.Lists.{LeavesList};
ghost use Rattle.deploy_task.specs.Spared.{DeployLies, DeploySparesList, Spares};
ghost use Rattle.deploy_task.specs.Steps.{Needs};

/// What others do meanwhile, by what it may leave at each path.
pub trait Writing {
    ghost writes: { Path → Seen → Type 0 };
}

/// What the next step needs stays true where others spare the task.
pub fn deploys_are_kept<S: Writing>()
    ensures { (t : Deploying) (v w : View) → IsTree v.now → Writes S.writes v w → Spares S.writes t v w → Needs t v → Needs t w }
{}

/// Where the writes of a step lie, and that none is where the list is read, but for the one rename that shows the new one.
pub fn deploys_lie()
    ensures lies { DeployLies }
    ensures spares { DeploySparesList }
{}

/// What a crash leaves at any moment of a deploy is a list, as its boot entries are read: the one that each crash left before, or the
/// new one.
pub fn leaves_a_list()
    ensures { LeavesList }
{}
