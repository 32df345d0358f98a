//! The names of all objects.
ghost use Rattle.std.specs.Prelude.{◌≡◌, ◌≤◌, Some, IfOk, IfErr};
ghost use Rattle.fs_trait.specs.View.{View};
ghost use Rattle.fs_trait.specs.Effect.{HasCause, IsQuiet, OfNone};
ghost use Rattle.store_check.specs.Listing.{AreAll};

use fs_trait::{Fs, FsErr};
use obj_store::list_part;
use ost_types::ObjName;
use std::alloc::Global;

/// The names of all objects, ascending, each once: of all at whose paths something stands.
///
/// The 256 folders of objects are listed, each once. Nothing is read or written.
pub fn list_objects<F: Fs>(alloc: Global, fs: &mut F) -> Result<Vec<ObjName>, FsErr>
    ensures told { (v : View) → F.view fs.old ≡ Some v → IfOk result (λ names. AreAll v.now names.items) }
    ensures named { IfErr result OfNone }
    ensures quiet { IsQuiet (F.clock fs.old) (F.clock fs.new) (F.was fs.old) (F.was fs.new) (F.view fs.old) (F.view fs.new) }
    ensures keeps_room { F.spare fs.old ≤ F.spare fs.new }
    ensures cause { HasCause (F.faults fs.old) (F.faults fs.new) result }
{
    let mut names = Vec::new(alloc);
    for first in 0..256u16 {
        let part = list_part(alloc, fs, first as u8)?;
        names.extend_from_slice(part.as_slice())?;
    }
    Ok(names)
}
