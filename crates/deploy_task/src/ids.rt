//! The list by the names of its members alone.
ghost use Rattle.std.specs.Prelude.{◌≡◌, ◌≤◌, ◌<◌, ◌^◌, All, IfOk, MatchOption, length};
ghost use Rattle.boot_model.specs.declared.item.DepId.{DepId};
ghost use Rattle.deploy_task.specs.Listed.{IsFirstOf, IsNumbered, NoneOf, deps_in, ids_in};

use boot_model::{BootItem, DepId};
use deploy_list::{Dep, kept_behind, serial_for};
use ost_types::{Csum, NoMemory, PathMap, Texts, TryCopy};
use repo_layout::OsName;
use std::alloc::Global;

/// What a new deployment is called, and the places of those that stay behind it.
#[derive(Drop)]
pub(crate) struct Numbered {
    pub(crate) id: DepId,
    pub(crate) kept: Vec<usize>,
}

/// The names of the members, in their order.
pub(crate) fn ids_of(alloc: Global, items: &[BootItem]) -> Result<Vec<DepId>, NoMemory>
    ensures ids { IfOk result (λ ids. ids.items ≡ ids_in items.now) }
    ensures small { IfOk result (λ ids. All (λ (id : DepId). id.serial < 2 ^ 32) ids.items) }
{
    let mut ids = Vec::new(alloc);
    for item in items {
        let id = item.id.copy()?;
        // known by this: it has 32 bits
        let _serial = id.serial;
        ids.push(id)?;
    }
    Ok(ids)
}

/// The members as those of a list of which nothing but the names is known.
fn deps_of(alloc: Global, items: &[BootItem]) -> Result<Vec<Dep>, NoMemory>
    ensures { IfOk result (λ deps. deps.items ≡ deps_in items.now) }
{
    let mut deps = Vec::new(alloc);
    for item in items {
        deps.push(Dep {
            id: item.id.copy()?,
            kargs: Texts::new(alloc),
            defaults: PathMap::new(alloc),
            etc: PathMap::new(alloc),
        })?;
    }
    Ok(deps)
}

/// How a new deployment of this stateroot and commit is numbered, and which stay behind it.
pub(crate) fn number(
    alloc: Global,
    items: &[BootItem],
    used: &[DepId],
    os: &OsName,
    commit: &Csum,
) -> Result<Numbered, NoMemory>
    requires { length items.now ≤ 8 }
    ensures { IfOk result (λ n. IsNumbered items.now used.now os.now commit.now n.id n.kept.items) }
{
    let deps = deps_of(alloc, items)?;
    let serial = serial_for(&deps, os, commit);
    let kept = kept_behind(alloc, &deps, os, used)?;
    let id = DepId {
        os: os.copy()?,
        commit: *commit,
        serial,
    };
    Ok(Numbered { id, kept })
}

/// The first deployment of the stateroot, from which a new one takes over the configuration.
pub(crate) fn first_of<'a>(items: &'a [BootItem], os: &OsName) -> Option<&'a DepId>
    ensures { MatchOption result (NoneOf items.now os.now) (λ id. IsFirstOf items.now os.now id.now) }
{
    for item in items {
        if item.id.os == *os {
            return Some(&item.id);
        }
    }
    None
}
