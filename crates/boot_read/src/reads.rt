//! What stands in a folder, and in a file of which not all may be read, where something else may stand in their place.
ghost use Rattle.std.specs.Prelude.{◌≡◌, ◌≤◌, ◌↔◌, Some, IfOk, IfErr, IsTrue, take};
ghost use Rattle.std.specs.Option.{option_map};
ghost use Rattle.fs_trait.specs.View.{View};
ghost use Rattle.fs_trait.specs.Image.{reads};
ghost use Rattle.fs_trait.specs.Effect.{HasCause, IsListing, IsQuiet, OfNone};
ghost use Rattle.boot_model.specs.Listing.{ends_conf};

use fs_trait::{Fs, FsErr};
use ost_types::{Bytes, FsPath, Name, Names};
use std::alloc::Global;

/// The first bytes of a file, at most so many; None where no regular file stands there.
pub(crate) fn read_front<F: Fs>(fs: &mut F, at: &FsPath, most: u32) -> Result<Option<Bytes>, FsErr>
    requires { 1 ≤ most }
    ensures told { (v : View) → F.view fs.old ≡ Some v → IfOk result (λ o. o ≡ option_map (take most) (reads v.now at.now)) }
    ensures named { IfErr result OfNone }
    ensures quiet { IsQuiet (F.clock fs.old) (F.clock fs.new) (F.was fs.old) (F.was fs.new) (F.view fs.old) (F.view fs.new) }
    ensures room { F.spare fs.old ≤ F.spare fs.new }
    ensures cause { HasCause (F.faults fs.old) (F.faults fs.new) result }
{
    match fs.read_part(at, 0, most) {
        Ok(bytes) => Ok(Some(bytes)),
        Err(FsErr::Missing) => Ok(None),
        Err(FsErr::NotFolder) => Ok(None),
        Err(error) => Err(error),
    }
}

/// The names in a folder, ascending; none where no folder stands there.
pub fn list_names<F: Fs>(fs: &mut F, alloc: Global, at: &FsPath) -> Result<Names, FsErr>
    ensures told { (v : View) → F.view fs.old ≡ Some v → IfOk result (IsListing v.now at.now) }
    ensures named { IfErr result OfNone }
    ensures quiet { IsQuiet (F.clock fs.old) (F.clock fs.new) (F.was fs.old) (F.was fs.new) (F.view fs.old) (F.view fs.new) }
    ensures room { F.spare fs.old ≤ F.spare fs.new }
    ensures cause { HasCause (F.faults fs.old) (F.faults fs.new) result }
{
    match fs.list(at) {
        Ok(names) => Ok(names),
        Err(FsErr::Missing) => Ok(Names::new(alloc)),
        Err(FsErr::NotFolder) => Ok(Names::new(alloc)),
        Err(error) => Err(error),
    }
}

/// Whether a file of this name is an entry.
pub fn is_entry_name(name: &Name) -> bool
    ensures { IsTrue result ↔ ends_conf name.now }
{
    let bytes = name.as_slice();
    &bytes[bytes.len().saturating_sub(5)..] == b".conf".as_slice()
}
