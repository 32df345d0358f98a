//! The names in a folder.
ghost use Rattle.std.specs.Prelude.{◌≡◌, ◌≤◌, ◌<◌, Some, IfOk, IfErr, length, reverse};
ghost use Rattle.fs_trait.specs.View.{View};
ghost use Rattle.fs_trait.specs.Effect.{HasCause, IsListing, IsQuiet, OfFinding, OfNone};

use fs_trait::{Fs, FsErr};
use ost_types::{FsPath, Name, Names};
use ref_room::{Stands, look_at};
use std::alloc::Global;

/// The names in a folder, ascending; none where no folder stands there.
pub(crate) fn names_in<F: Fs>(alloc: Global, fs: &mut F, at: &FsPath) -> Result<Names, FsErr>
    ensures told { (v : View) → F.view fs.old ≡ Some v → IfOk result (IsListing v.now at.now) }
    ensures fails { (v : View) → F.view fs.old ≡ Some v → IfErr result OfNone }
    ensures named { IfErr result OfFinding }
    ensures quiet { IsQuiet (F.clock fs.old) (F.clock fs.new) (F.was fs.old) (F.was fs.new) (F.view fs.old) (F.view fs.new) }
    ensures room { F.spare fs.old ≤ F.spare fs.new }
    ensures cause { HasCause (F.faults fs.old) (F.faults fs.new) result }
{
    match look_at(fs, at)? {
        Stands::Folder => fs.list(at),
        Stands::Nothing => Ok(Names::new(alloc)),
        Stands::Leaf => Ok(Names::new(alloc)),
    }
}

/// The names, the first one last.
pub(crate) fn next_last(names: Names) -> Vec<Name>
    ensures value { reverse result.items ≡ names }
    ensures few { length names < 18446744073709551616 }
{
    let mut names = names.into_vec();
    let _count = names.len();
    names.reverse();
    names
}
