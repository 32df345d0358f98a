//! The laws of a commit that was made, as functions whose contracts are the laws.

ghost use Rattle.std.specs.Prelude.{◌≡◌, ◌≤◌, ◌⊎◌, ℕ, List, []};
ghost use Rattle.ost_types.specs.declared.limits.Limits.{Limits};
ghost use Rattle.ost_forms.specs.declared.tree_item.TreeItem.{TreeItem};
ghost use Rattle.fs_trait.specs.View.{View};
ghost use Rattle.fs_trait.specs.Seen.{Vacant, shows};
ghost use Rattle.repo_model.specs.Objects.{path_of};
ghost use Rattle.tree_build.specs.Objects.{Object};
ghost use Rattle.commit_build.specs.declared.message.Message.{Message};
ghost use Rattle.commit_build.specs.Committing.{named_commit};
ghost use Rattle.commit_build.specs.Steps.{AreSure, IsSure, NeverMarked};
ghost use Rattle.rely_guarantee.specs.Lasting.{Outlasts};
ghost use Rattle.rely_guarantee.specs.Objects.{IsObjectSeen};
ghost use Rattle.rely_guarantee.specs.Opening.{IsOpening};
ghost use Rattle.rely_guarantee.specs.State.{State};
ghost use Rattle.commit_durability.specs.Lasting.{AreRight, IsCommit, IsKept, IsOf, LastsIn, sum_of};

use fs_trait::Fs;

/// A commit of a tree within the bounds lasts where no crash leaves an object of it away, or a mark of it, and what a crash leaves
/// at the paths of its objects has their names or is nothing. From an act in whose view it lasts it is kept, and it is kept by each
/// further act. On a disk that was opened, what a crash leaves at these paths has the names, or is nothing, where what stands
/// there does.
pub fn commits_last<F: Fs>()
    ensures opened { (state : State) (v : View) (tree : List TreeItem) (message : Message) → IsOpening state v → ((o : Object) → IsOf tree message o → (shows v.now (path_of o.name) ≡ Vacant) ⊎ IsObjectSeen o.name.kind o.name.csum (shows v.now (path_of o.name))) → AreRight v tree message }
    ensures made { (limits : Limits) (tree : List TreeItem) (message : Message) (v : View) → IsCommit limits tree message → AreSure tree v → IsSure v (named_commit (sum_of tree message)) → NeverMarked (sum_of tree message) v → AreRight v tree message → LastsIn limits tree message v }
    ensures begins { (limits : Limits) (tree : List TreeItem) (message : Message) (old new : F) (v w : View) (moment : ℕ) → Outlasts [] F.clock F.was old new v w → F.clock old ≤ moment → LastsIn limits tree message v → IsKept (F.was new) limits tree message moment w }
    ensures goes_on { (limits : Limits) (tree : List TreeItem) (message : Message) (old new : F) (v w : View) (moment : ℕ) → Outlasts [] F.clock F.was old new v w → IsKept (F.was old) limits tree message moment v → IsKept (F.was new) limits tree message moment w }
{}
