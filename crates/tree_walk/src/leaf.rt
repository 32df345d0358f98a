//! One file of a tree is looked at.
ghost use Rattle.std.specs.Prelude.{◌≡◌, ◌≤◌, Some};
ghost use Rattle.ost_types.specs.declared.object.Kind.TheVariants as kinds;
ghost use Rattle.fs_trait.specs.View.{View};
ghost use Rattle.fs_trait.specs.Effect.{HasCause, IsQuiet};
ghost use Rattle.fs_trait.specs.Seen.{shows};
ghost use Rattle.repo_layout.specs.RefFile.{IsSum};
ghost use Rattle.repo_model.specs.Objects.{path_of};
ghost use Rattle.repo_model.specs.Trees.{name_of};
ghost use Rattle.tree_read.specs.Looks.{Looks};
ghost use Rattle.tree_walk.specs.Standing.{IsLeaf};

use fs_trait::{Fs, FsErr, Node};
use ost_types::{Csum, Kind, Limits, ObjName};
use repo_layout::object_path;
use std::alloc::Global;
use tree_read::Looked;

/// Whether a file or a link stands at a file's object's path. It isn't read; a folder that stands there is none.
pub fn look_at_leaf<F: Fs>(
    alloc: Global,
    fs: &mut F,
    file: &Csum,
    _limits: &Limits,
) -> Result<Looked<()>, FsErr>
    ensures told { (v : View) → F.view fs.old ≡ Some v → Looks v.now _limits.now.content (name_of kinds.File file.now) (λ _. IsLeaf (shows v.now (path_of (name_of kinds.File file.now)))) result }
    ensures sum { IsSum file.now }
    ensures quiet { IsQuiet (F.clock fs.old) (F.clock fs.new) (F.was fs.old) (F.was fs.new) (F.view fs.old) (F.view fs.new) }
    ensures keeps_room { F.spare fs.old ≤ F.spare fs.new }
    ensures cause { HasCause (F.faults fs.old) (F.faults fs.new) result }
{
    let _sum = file.as_slice();
    let name = ObjName {
        csum: *file,
        kind: Kind::File,
    };
    let path = object_path(alloc, &name)?;
    match fs.stat(&path)? {
        None => Ok(Looked::Absent),
        Some(Node::Folder(_)) => Ok(Looked::Damaged),
        Some(_) => Ok(Looked::Here(())),
    }
}
