//! What others may rest on, beside the contracts of the steps.
ghost use Rattle.std.specs.Prelude.{◌≡◌, ◌↔◌, List, Result, ℕ};
ghost use Rattle.ost_types.specs.declared.limits.Limits.{Limits};
ghost use Rattle.ost_types.specs.declared.node.NodeName.{NodeName};
ghost use Rattle.ost_types.specs.Path.{Path};
ghost use Rattle.fs_trait.specs.declared.types.FsErr.{FsErr};
ghost use Rattle.fs_trait.specs.declared.task.StepResult.{StepResult};
ghost use Rattle.fs_trait.specs.View.{Disk};
ghost use Rattle.repo_model.specs.Objects.{Stores};
ghost use Rattle.repo_model.specs.Trees.{TreeShows};
ghost use Rattle.repo_model.specs.Whole.{Complete};
ghost use Rattle.tree_read.specs.declared.fault.TreeFault.{TreeFault};
ghost use Rattle.tree_read.specs.Reading.{Reading, StepTells, TellsIn};
ghost use Rattle.tree_walk.specs.Standing.{AreRight, Standing};

/// Where each file that stands is what its name says, a walk tells all that is told of a tree that is read. What a commit shows needs
/// no file.
pub fn walks_tell_all()
    ensures tells { (d : Disk) (old new : Reading) (r : Result (StepResult (Result (Unit {0}) TreeFault)) FsErr) → AreRight old.limits.content d → new.limits ≡ old.limits → TellsIn (Standing d) d old r new → StepTells d old r new }
    ensures whole { (d : Disk) (limits : Limits) (commit : List ℕ) → AreRight limits.content d → Complete (Standing d) limits commit → Complete (Stores d) limits commit }
    ensures shows { (d : Disk) (commit : List ℕ) (p : Path) (n : NodeName) → TreeShows (Standing d) commit p n ↔ TreeShows (Stores d) commit p n }
{}
