//! What stands in a file, where something else may stand in its place.
ghost use Rattle.std.specs.Prelude.{◌≡◌, ◌≤◌, Option, Some, IfOk, IfErr};
ghost use Rattle.fs_trait.specs.View.{View};
ghost use Rattle.fs_trait.specs.Image.{reads};
ghost use Rattle.fs_trait.specs.Effect.{HasCause, IsQuiet, OfNone};

use fs_trait::{Fs, FsErr};
use ost_types::{Bytes, FsPath};

/// The bytes of a file; None where no regular file stands there.
pub(crate) fn read_file<F: Fs>(fs: &mut F, at: &FsPath) -> Result<Option<Bytes>, FsErr>
    ensures told { (v : View) → F.view fs.old ≡ Some v → IfOk result (λ o. o ≡ reads v.now at.now) }
    ensures named { IfErr result OfNone }
    ensures quiet { IsQuiet (F.clock fs.old) (F.clock fs.new) (F.was fs.old) (F.was fs.new) (F.view fs.old) (F.view fs.new) }
    ensures keeps_room { F.spare fs.old ≤ F.spare fs.new }
    ensures cause { HasCause (F.faults fs.old) (F.faults fs.new) result }
{
    match fs.read(at) {
        Ok(bytes) => Ok(Some(bytes)),
        Err(FsErr::Missing) => Ok(None),
        Err(FsErr::NotFolder) => Ok(None),
        Err(error) => Err(error),
    }
}
