//! What a link of a deployment holds.
ghost use Rattle.std.specs.Prelude.{IfOk, MatchOption};
ghost use Rattle.boot_words.specs.Words.{LeadsNowhere, LeadsTo};

use crate::parts::read_parts;
use boot_model::DepId;
use ost_types::NoMemory;
use repo_layout::OsName;
use std::alloc::Global;

/// The deployment to which a link with this target leads: `../../../deploy/<stateroot>/deploy/<commit>.<serial>`. None where the target
/// has another form.
pub fn read_deploy_target(alloc: Global, target: &[u8]) -> Result<Option<DepId>, NoMemory>
    ensures { IfOk result (λ o. MatchOption o (LeadsNowhere target.now) (LeadsTo target.now)) }
{
    let Some(parts) = read_parts(target, b"../../../deploy/", b"deploy/", b'.') else {
        return Ok(None);
    };
    let name = OsName::parse(alloc, parts.os)?;
    match name {
        Some(os) => Ok(Some(DepId {
            os,
            commit: parts.sum,
            serial: parts.number,
        })),
        None => Ok(None),
    }
}
