//! Where the parts of a deployment stand.
ghost use Rattle.std.specs.Prelude.{◌≡◌, IfOk, codes};
ghost use Rattle.ost_types.specs.Path.{IsPath, under};
ghost use Rattle.deployment_build.specs.Deployment.{deployments, origin_of};

use crate::names::{known_name, origin_name};
use boot_model::DepId;
use ost_types::{FsPath, NoMemory};
use repo_layout::{Folder, OsName, folder_path};
use std::alloc::Global;

/// The `etc` of the deployment whose files are in this folder.
pub fn etc_path(alloc: Global, folder: &FsPath) -> Result<FsPath, NoMemory>
    requires { IsPath (under folder.now (codes "etc")) }
    ensures { IfOk result (λ p. p ≡ under folder.now (codes "etc")) }
{
    folder.child(&known_name(alloc, b"etc")?)
}

/// The folder of a stateroot's deployments: `/ostree/deploy/<stateroot>/deploy`.
pub(crate) fn deployments_path(alloc: Global, os: &OsName) -> Result<FsPath, NoMemory>
    ensures value { IfOk result (λ p. p ≡ deployments os.now) }
    ensures path { IfOk result IsPath }
{
    let stateroots = folder_path(alloc, Folder::Deploy)?;
    let stateroot = stateroots.child(&known_name(alloc, os.as_slice())?)?;
    stateroot.child(&known_name(alloc, b"deploy")?)
}

/// The origin file of a deployment: `<commit>.<serial>.origin` beside its files.
pub fn origin_path(alloc: Global, id: &DepId) -> Result<FsPath, NoMemory>
    ensures { IfOk result (λ p. p ≡ origin_of id.now) }
{
    deployments_path(alloc, &id.os)?.child(&origin_name(alloc, id)?)
}
