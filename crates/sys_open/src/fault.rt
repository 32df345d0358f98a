ghost use Rattle.std.specs.Prelude.{◌≡◌, ◌⊎◌};
ghost use Rattle.sys_open.specs.declared.fault.OpenFault.TheVariants as fault;
ghost use Rattle.sys_open.specs.Faults.{IsRefusal};

use boot_read::EntryFault;
use fs_trait::FsErr;
use ost_objects::CheckFault;
use ost_types::{FsPath, NoMemory, ObjName, TryCopy};
use std::alloc::{AllocError, AllocFailed};

/// What is wrong with what stands at a path.
#[derive(Clone, Copy, Debug, PartialEq, Eq)]
pub enum Why {
    /// What stands at the configuration's path isn't a regular file that is one.
    BadConfig,
    /// A leaf at or below the folder of refs isn't a ref file under the path of a good name, or a folder there has a name
    /// that is too long for a path.
    BadRef,
    /// What stands at an object's path doesn't have its name, or doesn't read as its kind.
    BadObject(CheckFault),
    /// This object is missing, or names a path that is past a limit: of the commit without a mark whose object has this path. Of
    /// the ref whose file has it, it is the commit that the ref names, which is missing or has a mark.
    Incomplete(ObjName),
    /// There are more objects than the limit, which is one less than this; or, at the folder of boot entries, more of them than the
    /// eight that there may be.
    TooMany(u64),
    /// Something else than a folder stands in a folder's place, as in that of a deployment's `etc`, a folder where a leaf belongs, or
    /// something else than a regular file at the path of a mark; or a folder that an opening removes has a name that is too long for
    /// a path.
    WrongKind,
    /// What stands there isn't the link by which a list of deployments boots.
    BadLink,
    /// The file is no boot entry.
    BadEntry(EntryFault),
    /// The boot entry leads to no deployment of its own, or to one of a commit that isn't there whole or can't be deployed.
    NoDeployment,
    /// Something else stands there, in a deployment, than its commit has.
    NotCheckout,
    /// What stands there isn't the copy of the deployment's kernel, or of what that first mounts.
    KernelCopy,
}

/// Why a repository isn't opened.
#[derive(Drop, Debug)]
pub enum OpenFault {
    /// A check failed at this path.
    Damaged(FsPath, Why),
    /// A call failed.
    Disk,
    /// A call on this path was refused against what was read before.
    Outside(FsPath),
    NoMemory,
}

impl From<NoMemory> for OpenFault {
    ghost from_gives = { λ _ e. e ≡ fault.NoMemory };

    fn from(_: NoMemory) -> OpenFault {
        OpenFault::NoMemory
    }
}

impl From<AllocError> for OpenFault {
    ghost from_gives = { λ _ e. e ≡ fault.NoMemory };

    fn from(_: AllocError) -> OpenFault {
        OpenFault::NoMemory
    }
}

impl<T: Drop> From<AllocFailed<T>> for OpenFault {
    ghost from_gives = { λ _ e. e ≡ fault.NoMemory };

    fn from(_: AllocFailed<T>) -> OpenFault {
        OpenFault::NoMemory
    }
}

/// What is told where a call on the path answered the error.
pub fn refused(at: &FsPath, error: FsErr) -> OpenFault
    ensures { IsRefusal at.now error result }
{
    match error {
        FsErr::Failed => OpenFault::Disk,
        FsErr::NoMemory => OpenFault::NoMemory,
        FsErr::Exists => outside(at),
        FsErr::Missing => outside(at),
        FsErr::NotFolder => outside(at),
        FsErr::NotEmpty => outside(at),
    }
}

fn outside(at: &FsPath) -> OpenFault
    ensures { (result ≡ fault.Outside at.now) ⊎ (result ≡ fault.NoMemory) }
{
    match at.copy() {
        Ok(path) => OpenFault::Outside(path),
        Err(NoMemory) => OpenFault::NoMemory,
    }
}

/// The damage at a path.
pub fn damaged(at: &FsPath, why: Why) -> OpenFault
    ensures { (result ≡ fault.Damaged at.now why) ⊎ (result ≡ fault.NoMemory) }
{
    match at.copy() {
        Ok(path) => OpenFault::Damaged(path, why),
        Err(NoMemory) => OpenFault::NoMemory,
    }
}
