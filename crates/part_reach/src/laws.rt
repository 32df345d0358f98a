//! What readers need of a store, each as a function whose contract is the law.
ghost use Rattle.std.specs.Prelude.{◌≡◌};
ghost use Rattle.ost_types.specs.declared.object.Kind.TheVariants.{Commit};
ghost use Rattle.fs_trait.specs.View.{Disk};
ghost use Rattle.repo_model.specs.Objects.{Stores};
ghost use Rattle.repo_model.specs.Trees.{name_of};
ghost use Rattle.tree_read.specs.Reading.{Knows, Reading};
ghost use Rattle.reach.specs.Reach.{Is, Reach};
ghost use Rattle.reach.specs.Removed.{Part};

/// What was read of a tree so far holds in the part of the store that is reached from the commit: it needs no other object.
pub fn readings_need()
    ensures { (d : Disk) (t : Reading) → Knows (Stores d) t → Knows (Part (Stores d) (Reach (Stores d) (Is (name_of Commit t.commit)))) t }
{}
