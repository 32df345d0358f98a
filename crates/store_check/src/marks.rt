//! Marks of commits.
ghost use Rattle.std.specs.Prelude.{◌≡◌, ◌≤◌, ◌↔◌, IsTrue, Some, IfOk, IfErr};
ghost use Rattle.fs_trait.specs.View.{View};
ghost use Rattle.fs_trait.specs.Effect.{HasCause, IsQuiet, OfNone};
ghost use Rattle.repo_layout.specs.Paths.{mark_path};
ghost use Rattle.repo_layout.specs.Refs.{is_leaf};
ghost use Rattle.store_check.specs.Commits.{IsFinished};

use fs_trait::{Fs, FsErr, Node};
use obj_store::has;
use ost_types::{Csum, Kind, ObjName};
use repo_layout::mark_path;
use std::alloc::Global;

/// Whether a mark says that objects of the commit may be missing.
pub fn is_marked<F: Fs>(alloc: Global, fs: &mut F, commit: &Csum) -> Result<bool, FsErr>
    ensures told { (v : View) → F.view fs.old ≡ Some v → IfOk result (λ b. b ≡ is_leaf (v.now.at (mark_path commit.now))) }
    ensures named { IfErr result OfNone }
    ensures quiet { IsQuiet (F.clock fs.old) (F.clock fs.new) (F.was fs.old) (F.was fs.new) (F.view fs.old) (F.view fs.new) }
    ensures keeps_room { F.spare fs.old ≤ F.spare fs.new }
    ensures cause { HasCause (F.faults fs.old) (F.faults fs.new) result }
{
    let path = mark_path(alloc, commit)?;
    match fs.stat(&path)? {
        Some(Node::File { .. }) => Ok(true),
        Some(Node::Link { .. }) => Ok(true),
        Some(Node::Folder(_)) => Ok(false),
        None => Ok(false),
    }
}

/// Whether the commit is there and has no mark.
pub fn is_finished<F: Fs>(alloc: Global, fs: &mut F, commit: &Csum) -> Result<bool, FsErr>
    ensures told { (v : View) → F.view fs.old ≡ Some v → IfOk result (λ b. IsTrue b ↔ IsFinished v.now commit.now) }
    ensures named { IfErr result OfNone }
    ensures quiet { IsQuiet (F.clock fs.old) (F.clock fs.new) (F.was fs.old) (F.was fs.new) (F.view fs.old) (F.view fs.new) }
    ensures keeps_room { F.spare fs.old ≤ F.spare fs.new }
    ensures cause { HasCause (F.faults fs.old) (F.faults fs.new) result }
{
    let name = ObjName {
        csum: *commit,
        kind: Kind::Commit,
    };
    if has(alloc, fs, &name)? {
        let marked = is_marked(alloc, fs, commit)?;
        Ok(!marked)
    } else {
        Ok(false)
    }
}
