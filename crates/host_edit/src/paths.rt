ghost use Rattle.std.specs.Prelude.{◌≡◌, ◌≢◌, [], IfOk};
ghost use Rattle.ost_types.specs.Path.{IsPath, Name, under};

use ost_types::{FsPath, Name, NoMemory};
use std::alloc::Global;

/// The folder that a path is in.
pub(crate) fn folder_of(alloc: Global, at: &FsPath) -> Result<FsPath, NoMemory>
    requires { at.now ≢ [] }
    ensures { IfOk result (λ folder. (x : Name) × (at.now ≡ under folder x)) }
{
    let Some((_, names)) = at.names().split_last() else {
        unreachable!()
    };
    path_of(alloc, names)
}

// the path of these names
fn path_of(alloc: Global, names: &[Name]) -> Result<FsPath, NoMemory>
    requires { IsPath names.now }
    ensures { IfOk result (λ p. p ≡ names.now) }
{
    let mut path = FsPath::root(alloc);
    for name in names {
        path = path.child(name)?;
    }
    Ok(path)
}
