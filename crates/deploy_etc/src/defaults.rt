//! The defaults of a deployment's `etc`.
ghost use Rattle.std.specs.Prelude.{◌≡◌, ◌≤◌, IfOk, length};
ghost use Rattle.ost_types.specs.Text.{IsName};
ghost use Rattle.deploy_etc.specs.Defaults.{AreDefaults, defaults_path};

use crate::parts::part_of;
use ost_types::{FsPath, Name, NoMemory, PathMap};
use std::alloc::Global;

/// What stands in the tree at `/usr/etc` and below, as a map of its own: the defaults of a deployment's `etc`.
pub fn defaults_of(alloc: Global, tree: &PathMap) -> Result<PathMap, NoMemory>
    ensures defaults { IfOk result (AreDefaults tree.now) }
    ensures few { IfOk result (λ defaults. length defaults ≤ length tree.now) }
{
    let at = defaults_path(alloc)?;
    part_of(alloc, tree, &at)
}

/// `/usr/etc`.
fn defaults_path(alloc: Global) -> Result<FsPath, NoMemory>
    ensures { IfOk result (λ p. p ≡ defaults_path) }
{
    let usr = known_name(alloc, b"usr")?;
    let etc = known_name(alloc, b"etc")?;
    let usr_path = FsPath::root(alloc).child(&usr)?;
    usr_path.child(&etc)
}

// the name that these bytes are known to be
fn known_name(alloc: Global, bytes: &[u8]) -> Result<Name, NoMemory>
    requires { IsName bytes.now }
    ensures { IfOk result (λ n. n ≡ bytes.now) }
{
    match Name::parse(alloc, bytes)? {
        Some(name) => Ok(name),
        None => unreachable!(),
    }
}
