//! A stateroot in hand.
ghost use Rattle.std.specs.Prelude.{◌≡◌, ◌≤◌, ◌<◌, Some, IfOk, IfErr, IfSome, length};
ghost use Rattle.fs_trait.specs.View.{View};
ghost use Rattle.fs_trait.specs.Effect.{HasCause, IsListing, IsQuiet, OfFinding, OfNone};
ghost use Rattle.deploy_clean.specs.Unlisted.{deployments};
ghost use Rattle.deploy_clean.specs.Opened.{IsOpenedAs, passed};
ghost use Rattle.deploy_clean.specs.NextName.{IsNextName};

use crate::list::{names_in, next_last};
use crate::named::is_unlisted_name;
use crate::paths::{deployed_path, deployments_path};
use boot_model::DepId;
use fs_trait::{Fs, FsErr};
use ost_types::{FsPath, Name, NoMemory};
use repo_layout::OsName;
use std::alloc::Global;
use std::marker::Model;

/// A stateroot, and the names in the folder of its deployments that weren't seen to yet, the next one last.
#[derive(Drop, Debug)]
pub(crate) struct Stateroot {
    pub(crate) os: OsName,
    pub(crate) names: Vec<Name>,
}

impl Model for Stateroot {
    ghost use Rattle.std.specs.Prelude.{reverse};
    ghost use Rattle.deploy_clean.specs.Opened.{Opened};

    ghost Value = { Opened };

    ghost view = { λ a. record { os = a.os; names = reverse a.names.items } };
}

/// What the next name of a stateroot is.
#[derive(Drop, Debug)]
pub(crate) enum NextName {
    /// There is none.
    Nothing,
    /// One that stays.
    Other,
    /// That of a deployment that isn't listed, or of its origin file; it stands at this path.
    Unlisted(FsPath),
}

impl Stateroot {
    /// What the next name is.
    pub(crate) fn next_name(&self, alloc: Global, listed: &[DepId]) -> Result<NextName, NoMemory>
        ensures { IfOk result (IsNextName listed.now self.now) }
    {
        let Some(name) = self.names.last() else {
            return Ok(NextName::Nothing);
        };
        let is_unlisted = is_unlisted_name(alloc, listed, &self.os, name.as_slice())?;
        if !is_unlisted {
            return Ok(NextName::Other);
        }
        let at = deployed_path(alloc, &self.os, name)?;
        Ok(NextName::Unlisted(at))
    }

    /// The next name was seen to.
    pub(crate) fn pass(&mut self)
        ensures { self.new ≡ passed self.old }
    {
        self.names.pop();
    }
}

/// The stateroot of this name, with the names in the folder of its deployments; None where no stateroot has it.
pub(crate) fn open_stateroot<F: Fs>(
    alloc: Global,
    fs: &mut F,
    name: &Name,
) -> Result<Option<Stateroot>, FsErr>
    ensures opened { IfOk result (IsOpenedAs name.now) }
    ensures told { (v : View) → F.view fs.old ≡ Some v → IfOk result (λ o. IfSome o (λ o. IsListing v.now (deployments name.now) o.names)) }
    ensures fails { (v : View) → F.view fs.old ≡ Some v → IfErr result OfNone }
    ensures named { IfErr result OfFinding }
    ensures quiet { IsQuiet (F.clock fs.old) (F.clock fs.new) (F.was fs.old) (F.was fs.new) (F.view fs.old) (F.view fs.new) }
    ensures room { F.spare fs.old ≤ F.spare fs.new }
    ensures cause { HasCause (F.faults fs.old) (F.faults fs.new) result }
{
    let found = OsName::parse(alloc, name.as_slice())?;
    match found {
        None => Ok(None),
        Some(os) => {
            let stateroot = list_deployments(alloc, fs, os)?;
            Ok(Some(stateroot))
        }
    }
}

fn list_deployments<F: Fs>(alloc: Global, fs: &mut F, os: OsName) -> Result<Stateroot, FsErr>
    ensures opened { IfOk result (λ o. (o.os ≡ os) × (length o.names < 18446744073709551616)) }
    ensures told { (v : View) → F.view fs.old ≡ Some v → IfOk result (λ o. IsListing v.now (deployments os) o.names) }
    ensures fails { (v : View) → F.view fs.old ≡ Some v → IfErr result OfNone }
    ensures named { IfErr result OfFinding }
    ensures quiet { IsQuiet (F.clock fs.old) (F.clock fs.new) (F.was fs.old) (F.was fs.new) (F.view fs.old) (F.view fs.new) }
    ensures room { F.spare fs.old ≤ F.spare fs.new }
    ensures cause { HasCause (F.faults fs.old) (F.faults fs.new) result }
{
    let at = deployments_path(alloc, &os)?;
    let names = names_in(alloc, fs, &at)?;
    Ok(Stateroot {
        os,
        names: next_last(names),
    })
}
