//! The least of the paths at which something wrong stands.
ghost use Rattle.sys_open.specs.Walk.{IsDamage, IsLesser};

use crate::fault::OpenFault;
use ost_types::FsPath;

/// The path of the damage that was told, if it was one.
pub fn damage(told: Result<(), OpenFault>) -> Result<Option<FsPath>, OpenFault>
    ensures { IsDamage told result }
{
    match told {
        Ok(()) => Ok(None),
        Err(OpenFault::Damaged(path, _)) => Ok(Some(path)),
        Err(fault) => Err(fault),
    }
}

/// The lesser of two paths, or the one that there is.
pub fn lesser(first: Option<FsPath>, second: Option<FsPath>) -> Option<FsPath>
    ensures { IsLesser first second result }
{
    match (first, second) {
        (Some(first), Some(second)) => {
            if second < first {
                Some(second)
            } else {
                Some(first)
            }
        }
        (Some(first), None) => Some(first),
        (None, second) => second,
    }
}
