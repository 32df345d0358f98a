//! What a walk of a tree does at a file.
ghost use Rattle.std.specs.Prelude.{◌≡◌, ◌≤◌, Some};
ghost use Rattle.ost_types.specs.declared.object.Kind.TheVariants as kinds;
ghost use Rattle.fs_trait.specs.View.{Disk, View};
ghost use Rattle.fs_trait.specs.Effect.{HasCause, IsQuiet};
ghost use Rattle.repo_model.specs.Objects.{Has, Store};
ghost use Rattle.repo_model.specs.Trees.{name_of};
ghost use Rattle.tree_read.specs.Looks.{Looks};
ghost use Rattle.tree_read.specs.TreeStore.{IsTreeStore};

use crate::looked::Looked;
use fs_trait::{Fs, FsErr};
use ost_types::{Csum, Limits};
use std::alloc::Global;

pub trait AtFile {
    /// The objects of a disk, as such a walk takes them.
    ghost store: { Disk → Store };

    /// Looks at a file's object, of which nothing is kept.
    fn look<F: Fs>(
        alloc: Global,
        fs: &mut F,
        file: &Csum,
        limits: &Limits,
    ) -> Result<Looked<()>, FsErr>
        ensures told { (v : View) → F.view fs.old ≡ Some v → Looks v.now limits.now.content (name_of kinds.File file.now) (λ _. Has (store v.now) limits.now.content (name_of kinds.File file.now)) result }
        ensures quiet { IsQuiet (F.clock fs.old) (F.clock fs.new) (F.was fs.old) (F.was fs.new) (F.view fs.old) (F.view fs.new) }
        ensures keeps_room { F.spare fs.old ≤ F.spare fs.new }
        ensures cause { HasCause (F.faults fs.old) (F.faults fs.new) result };

    ghost trees: { (d : Disk) → IsTreeStore d (store d) };
}
