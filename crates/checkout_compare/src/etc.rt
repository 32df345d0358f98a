//! The files of a deployment outside its `etc`.
ghost use Rattle.std.specs.Prelude.{◌≡◌, ◌↔◌, IsTrue};
ghost use Rattle.ost_types.specs.Path.{same_name};
ghost use Rattle.repo_layout.specs.Place.{IsOutsideEtc};

use ost_types::{FsPath, Name};

/// Whether the path in a deployment isn't `etc`, nor below it.
pub(crate) fn is_outside_etc(path: &FsPath) -> bool
    ensures { IsTrue result ↔ IsOutsideEtc path.now }
{
    match path.names().first() {
        Some(top) => !is(top, b"etc"),
        None => true,
    }
}

fn is(name: &Name, text: &[u8]) -> bool
    ensures { result ≡ same_name name.now text.now }
{
    name.as_slice() == text
}
