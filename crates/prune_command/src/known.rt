//! What a prune keeps.
ghost use Rattle.std.specs.Prelude.{◌≡◌, ◌++◌, [], map, IfOk};
ghost use Rattle.ost_types.specs.declared.object.Kind.TheVariants as object;
ghost use Rattle.repo_model.specs.Trees.{name_of};
ghost use Rattle.rely_guarantee.specs.Pinning.{without};
ghost use Rattle.prune_command.specs.Learned.{AreOfState, commit_of, deployed_of, from_of, object_of};

use boot_model::DepId;
use ost_types::{Csum, Kind, NoMemory, ObjName, ObjNames};
use ref_book::RefBook;
use rely_guarantee::Pin;
use repo_layout::RefName;
use std::alloc::Global;

/// Where a prune begins: what is reached from there stays.
#[derive(Drop, Debug)]
pub struct Known {
    /// The commits that refs name, and behind them those that are deployed.
    pub(crate) roots: ObjNames,
    /// What other lanes have pinned.
    pub(crate) held: ObjNames,
}

impl Known {
    pub(crate) fn nothing(alloc: Global) -> Known
        ensures { result ≡ record { roots = []; held = [] } }
    {
        Known {
            roots: ObjNames::new(alloc),
            held: ObjNames::new(alloc),
        }
    }

    /// What these refs name, what these deployments are of, and what these pins of other lanes hold.
    pub(crate) fn of(
        alloc: Global,
        lane: u8,
        refs: &RefBook,
        deployments: &[DepId],
        pins: &[Pin],
    ) -> Result<Known, NoMemory>
        ensures roots { IfOk result (λ k. AreOfState refs.now deployments.now k.roots) }
        ensures held { IfOk result (λ k. k.held ≡ map object_of (without lane pins.now)) }
    {
        let rows = refs.rows()?;
        Ok(Known {
            roots: commits_of(alloc, rows.as_slice(), deployments)?,
            held: held_by_others(alloc, lane, pins)?,
        })
    }

    /// All of them.
    pub(crate) fn all(&self, alloc: Global) -> Result<Vec<ObjName>, NoMemory>
        ensures { IfOk result (λ names. names.items ≡ from_of self.now) }
    {
        let mut names = Vec::new(alloc);
        names.extend_from_slice(self.roots.as_slice())?;
        names.extend_from_slice(self.held.as_slice())?;
        Ok(names)
    }
}

/// The commits that the refs name, in their order, and behind them those of the deployments.
fn commits_of(
    alloc: Global,
    rows: &[(RefName, Csum)],
    deployments: &[DepId],
) -> Result<ObjNames, NoMemory>
    ensures { IfOk result (λ names. names ≡ map commit_of rows.now ++ map deployed_of deployments.now) }
{
    let mut names = named_by(alloc, rows)?;
    for id in deployments {
        names.push(commit_name(id.commit))?;
    }
    Ok(names)
}

/// The commits that the refs name, in their order.
fn named_by(alloc: Global, rows: &[(RefName, Csum)]) -> Result<ObjNames, NoMemory>
    ensures { IfOk result (λ names. names ≡ map commit_of rows.now) }
{
    let mut names = ObjNames::new(alloc);
    for (_, commit) in rows {
        names.push(commit_name(*commit))?;
    }
    Ok(names)
}

fn commit_name(commit: Csum) -> ObjName
    ensures { result ≡ name_of object.Commit commit }
{
    ObjName {
        csum: commit,
        kind: Kind::Commit,
    }
}

/// What lanes other than this one have pinned.
fn held_by_others(alloc: Global, lane: u8, pins: &[Pin]) -> Result<ObjNames, NoMemory>
    ensures { IfOk result (λ names. names ≡ map object_of (without lane pins.now)) }
{
    let mut names = ObjNames::new(alloc);
    for pin in pins {
        if pin.lane != lane {
            names.push(pin.object)?;
        }
    }
    Ok(names)
}
