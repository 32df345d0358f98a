//! Which names are those of deployments that no list names, and of their origin files.
ghost use Rattle.std.specs.Prelude.{◌≡◌, ◌↔◌, IfOk, IsTrue, MatchOption};
ghost use Rattle.deploy_clean.specs.Unlisted.{IsIdName, IsNoId, IsUnlistedId, IsUnlistedName, is_listed, same_id};

use boot_model::DepId;
use boot_words::read_deploy_target;
use ost_types::{Bytes, NoMemory};
use repo_layout::OsName;
use std::alloc::Global;

/// Whether this is the name of a deployment of the stateroot that isn't listed, or of its origin file.
pub fn is_unlisted_name(
    alloc: Global,
    listed: &[DepId],
    os: &OsName,
    name: &[u8],
) -> Result<bool, NoMemory>
    ensures { IfOk result (λ yes. IsTrue yes ↔ IsUnlistedName listed.now os.now name.now) }
{
    let is_id = is_unlisted_id(alloc, listed, os, name)?;
    if is_id {
        return Ok(true);
    }
    match name.strip_suffix(b".origin") {
        Some(stem) => is_unlisted_id(alloc, listed, os, stem),
        None => Ok(false),
    }
}

fn is_unlisted_id(
    alloc: Global,
    listed: &[DepId],
    os: &OsName,
    name: &[u8],
) -> Result<bool, NoMemory>
    ensures { IfOk result (λ yes. IsTrue yes ↔ IsUnlistedId listed.now os.now name.now) }
{
    let read = read_id(alloc, os, name)?;
    match read {
        Some(id) => Ok(!is_listed(listed, &id)),
        None => Ok(false),
    }
}

/// The deployment of the stateroot that has this name, read as what a link to it holds.
fn read_id(alloc: Global, os: &OsName, name: &[u8]) -> Result<Option<DepId>, NoMemory>
    ensures { IfOk result (λ o. MatchOption o (IsNoId os.now name.now) (IsIdName os.now name.now)) }
{
    let mut target = Bytes::from_slice(alloc, b"../../../deploy/")?;
    target.append(os.as_slice())?;
    target.append(b"/deploy/")?;
    target.append(name)?;
    read_deploy_target(alloc, target.as_slice())
}

fn is_listed(listed: &[DepId], id: &DepId) -> bool
    ensures { result ≡ is_listed listed.now id.now }
{
    listed.iter().any(|other| is_same(id, other))
}

fn is_same(a: &DepId, b: &DepId) -> bool
    ensures { result ≡ same_id a.now b.now }
{
    a.os == b.os && a.commit == b.commit && a.serial == b.serial
}
