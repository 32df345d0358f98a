//! Where a deployment and its `etc` stand.
ghost use Rattle.std.specs.Prelude.{◌≡◌, ◌⊎◌, ◌++◌, IfOk};
ghost use Rattle.ost_types.specs.Path.{IsPath};
ghost use Rattle.ost_types.specs.Text.{IsName};
ghost use Rattle.repo_layout.specs.Paths.{deploy_path};
ghost use Rattle.commit_checkout.specs.TreeFolder.{HasRoomBelow};
ghost use Rattle.deployment_check.specs.Deployments.{etc_of, home_of};

use boot_model::DepId;
use ost_types::{Csum, FsPath, Name, NoMemory, TryCopy};
use repo_layout::{OsName, deploy_path};
use std::alloc::Global;

/// The folder of the deployment: `/ostree/deploy/<stateroot>/deploy/<commit>.<serial>`.
pub(crate) fn home_path(alloc: Global, id: &DepId) -> Result<FsPath, NoMemory>
    ensures value { IfOk result (λ p. p ≡ home_of id.now) }
    ensures room { IfOk result HasRoomBelow }
{
    home_at(alloc, &id.os, &id.commit, id.serial)
}

// the serial by itself, since it is known to be small then
fn home_at(alloc: Global, os: &OsName, commit: &Csum, serial: u32) -> Result<FsPath, NoMemory>
    ensures value { IfOk result (λ p. p ≡ deploy_path os.now commit.now serial) }
    ensures room { IfOk result HasRoomBelow }
{
    // known by these: the tree of a commit has room below it
    let _os = os.as_slice();
    let _digits = commit.to_hex();
    deploy_path(alloc, os, commit, serial)
}

/// The `etc` of the deployment, in its folder.
pub fn etc_path(alloc: Global, id: &DepId) -> Result<FsPath, NoMemory>
    ensures { IfOk result (λ p. p ≡ etc_of id.now) }
{
    let name = known_name(alloc, b"etc")?;
    home_path(alloc, id)?.child(&name)
}

/// The path in the folder, as one from the root, unless it is past the bounds of paths.
pub(crate) fn path_in(folder: &FsPath, relative: &FsPath) -> Result<FsPath, NoMemory>
    ensures { IfOk result (λ p. (p ≡ folder.now ++ relative.now) ⊎ ¬ (IsPath (folder.now ++ relative.now))) }
{
    if folder.can_join(relative) {
        folder.join(relative)
    } else {
        folder.copy()
    }
}

// the name that these bytes are known to be
fn known_name(alloc: Global, bytes: &[u8]) -> Result<Name, NoMemory>
    requires { IsName bytes.now }
    ensures { IfOk result (λ n. n ≡ bytes.now) }
{
    match Name::parse(alloc, bytes)? {
        Some(name) => Ok(name),
        None => unreachable!(),
    }
}
