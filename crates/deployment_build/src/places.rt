ghost use Rattle.std.specs.Prelude.{◌≡◌, IfOk};
ghost use Rattle.ost_types.specs.Path.{IsPath};
ghost use Rattle.deployment_build.specs.Deployment.{etc_of};
ghost use Rattle.deployment_build.specs.Work.{places_of};

use crate::paths::{deployments_path, etc_path, origin_path};
use boot_model::DepId;
use ost_types::{FsPath, NoMemory, TryCopy};
use repo_layout::deploy_path;
use std::alloc::Global;

/// Where a deployment is built.
#[derive(Drop)]
pub(crate) struct Places {
    /// The folder of its files.
    pub(crate) files: FsPath,
    pub(crate) etc: FsPath,
    /// The folder of all deployments of its stateroot.
    pub(crate) folder: FsPath,
    /// Its origin file.
    pub(crate) origin: FsPath,
    /// Where that is staged.
    pub(crate) stage: FsPath,
}

/// The places of this deployment, whose origin file is staged there.
pub(crate) fn make_places(alloc: Global, stage: &FsPath, id: &DepId) -> Result<Places, NoMemory>
    requires { IsPath (etc_of id.now) }
    ensures { IfOk result (λ p. p ≡ places_of stage.now id.now) }
{
    let files = deploy_path(alloc, &id.os, &id.commit, id.serial)?;
    let etc = etc_path(alloc, &files)?;
    let folder = deployments_path(alloc, &id.os)?;
    let origin = origin_path(alloc, id)?;
    let stage = stage.copy()?;
    Ok(Places {
        files,
        etc,
        folder,
        origin,
        stage,
    })
}
