//! Whether bytes read as an object of a kind.

ghost use Rattle.ost_types.specs.declared.object.Kind.TheVariants as kinds;
ghost use Rattle.ost_objects.specs.Object.{Tests};

use ost_forms::{ObjFault, read_commit, read_dirmeta, read_dirtree, test_content};
use ost_types::{Kind, Limits};
use std::alloc::Global;

/// Whether these bytes read as an object of the kind. A file's content is only looked at, and not copied.
pub fn test_object(alloc: Global, kind: Kind, bytes: &[u8], limits: &Limits) -> Result<(), ObjFault>
    ensures { Tests kind limits.now.content bytes.now result }
{
    match kind {
        Kind::Commit => test_commit(alloc, bytes),
        Kind::DirTree => test_dirtree(alloc, bytes),
        Kind::DirMeta => test_dirmeta(alloc, bytes),
        Kind::File => test_content(alloc, bytes, limits),
    }
}

fn test_commit(alloc: Global, bytes: &[u8]) -> Result<(), ObjFault>
    ensures { Tests kinds.Commit 0 bytes.now result }
{
    match read_commit(alloc, bytes) {
        Ok(_) => Ok(()),
        Err(fault) => Err(fault),
    }
}

fn test_dirtree(alloc: Global, bytes: &[u8]) -> Result<(), ObjFault>
    ensures { Tests kinds.DirTree 0 bytes.now result }
{
    match read_dirtree(alloc, bytes) {
        Ok(_) => Ok(()),
        Err(fault) => Err(fault),
    }
}

fn test_dirmeta(alloc: Global, bytes: &[u8]) -> Result<(), ObjFault>
    ensures { Tests kinds.DirMeta 0 bytes.now result }
{
    match read_dirmeta(alloc, bytes) {
        Ok(_) => Ok(()),
        Err(fault) => Err(fault),
    }
}
