//! Where the deployments of a stateroot stand.
ghost use Rattle.std.specs.Prelude.{◌≡◌, IfOk};
ghost use Rattle.ost_types.specs.Path.{under};
ghost use Rattle.ost_types.specs.Text.{IsName};
ghost use Rattle.deploy_clean.specs.Unlisted.{deployments};

use ost_types::{FsPath, Name, NoMemory};
use repo_layout::{Folder, OsName, folder_path};
use std::alloc::Global;

/// The folder of a stateroot's deployments: `/ostree/deploy/<stateroot>/deploy`.
pub fn deployments_path(alloc: Global, os: &OsName) -> Result<FsPath, NoMemory>
    ensures { IfOk result (λ p. p ≡ deployments os.now) }
{
    let stateroots = folder_path(alloc, Folder::Deploy)?;
    let stateroot = stateroots.child(&known_name(alloc, os.as_slice())?)?;
    stateroot.child(&known_name(alloc, b"deploy")?)
}

/// The path of this name in the folder of a stateroot's deployments.
pub fn deployed_path(alloc: Global, os: &OsName, name: &Name) -> Result<FsPath, NoMemory>
    ensures { IfOk result (λ p. p ≡ under (deployments os.now) name.now) }
{
    let folder = deployments_path(alloc, os)?;
    // known by these: the path is within the bounds of paths
    let _os = os.as_slice();
    let _name = name.as_slice();
    folder.child(name)
}

// the name that these bytes are known to be
fn known_name(alloc: Global, bytes: &[u8]) -> Result<Name, NoMemory>
    requires { IsName bytes.now }
    ensures value { IfOk result (λ n. n ≡ bytes.now) }
    ensures name { IfOk result IsName }
{
    match Name::parse(alloc, bytes)? {
        Some(name) => Ok(name),
        None => unreachable!(),
    }
}
