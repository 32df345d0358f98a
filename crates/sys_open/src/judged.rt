//! What is wrong with the deployments that were judged so far.
ghost use Rattle.std.specs.Prelude.{◌≡◌, None, IfOk};
ghost use Rattle.std.specs.Cmp.Lexicographic.{slice_cmp};
ghost use Rattle.std.specs.Ordering.{nat_cmp};
ghost use Rattle.ost_types.specs.Path.{path_cmp};
ghost use Rattle.sys_open.specs.declared.judged.Broken.{Broken as Break};
ghost use Rattle.sys_open.specs.Judged.{Adds, AddsBroken, AddsUnfit, IsLesserOf};

use crate::fault::Why;
use boot_read::BootRow;
use deployment_check::Judgement;
use ost_types::{FsPath, Name, NoMemory, TryCopy};
use repo_layout::deploy_path;
use std::alloc::Global;

/// Of the rows that were judged so far.
#[derive(Drop)]
pub struct Faults {
    /// The least file of an entry whose commit can't be deployed.
    pub unfit: Option<Name>,
    /// The deployment with the least folder of those that aren't whole.
    pub broken: Option<Broken>,
}

/// What is told of a deployment that isn't whole.
#[derive(Drop)]
pub struct Broken {
    /// Its folder.
    pub home: FsPath,
    pub at: FsPath,
    pub why: Why,
}

impl Faults {
    pub fn none() -> Faults
        ensures { result ≡ record { unfit = None; broken = None } }
    {
        Faults {
            unfit: None,
            broken: None,
        }
    }

    /// What is wrong where this was told of the row's deployment, too.
    pub fn with(
        self,
        alloc: Global,
        row: &BootRow,
        judgement: Judgement,
    ) -> Result<Faults, NoMemory>
        ensures { IfOk result (Adds self row.now judgement) }
    {
        match judgement {
            Judgement::Whole => Ok(self),
            Judgement::NoDeployment => self.with_unfit(row),
            Judgement::NotCheckout(at) => self.with_broken(alloc, row, at, Why::NotCheckout),
            Judgement::WrongKind(at) => self.with_broken(alloc, row, at, Why::WrongKind),
            Judgement::KernelCopy(at) => self.with_broken(alloc, row, at, Why::KernelCopy),
        }
    }

    fn with_unfit(self, row: &BootRow) -> Result<Faults, NoMemory>
        ensures { IfOk result (AddsUnfit self row.now) }
    {
        let file = row.file.copy()?;
        let Faults { unfit, broken } = self;
        Ok(Faults {
            unfit: Some(lesser_file(unfit, file)),
            broken,
        })
    }

    fn with_broken(
        self,
        alloc: Global,
        row: &BootRow,
        at: FsPath,
        why: Why,
    ) -> Result<Faults, NoMemory>
        ensures { IfOk result (AddsBroken self row.now at why) }
    {
        let home = deploy_path(alloc, &row.id.os, &row.id.commit, row.id.serial)?;
        let Faults { unfit, broken } = self;
        Ok(Faults {
            unfit,
            broken: Some(lesser_folder(broken, Broken { home, at, why })),
        })
    }
}

fn lesser_file(before: Option<Name>, next: Name) -> Name
    ensures { IsLesserOf (slice_cmp nat_cmp) (λ f. f) before next result }
{
    match before {
        None => next,
        Some(before) => { if next < before { next } else { before } }
    }
}

fn lesser_folder(before: Option<Broken>, next: Broken) -> Broken
    ensures { IsLesserOf path_cmp (λ (b : Break). b.home) before next result }
{
    match before {
        None => next,
        Some(before) => {
            if next.home < before.home {
                next
            } else {
                before
            }
        }
    }
}
