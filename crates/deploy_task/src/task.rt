ghost use Rattle.std.specs.Prelude.{◌≡◌, IfOk};
ghost use Rattle.deploy_task.specs.Deploying.{IsBegun, MayDeploy, need_in};

mod steps;

use crate::deploy::Deploy;
use crate::ids::{Numbered, ids_of, number};
use crate::phase::Phase;
use boot_model::DepId;
use deploy_clean::CleanTask;
use fs_trait::Need;
use ost_types::NoMemory;
use std::alloc::Global;
use std::marker::Model;

/// The task that deploys a commit, a step at a time, while nobody else works on the list of deployments. What no list names is removed,
/// the new deployment is built aside of what boots, and then the list with it in front comes to boot, in one rename. A crash at any
/// moment leaves the old list or the new one.
#[derive(Drop, Debug)]
pub struct DeployTask {
    alloc: Global,
    deploy: Deploy,
    id: DepId,
    // the places in the list of those that stay behind the new one
    kept: Vec<usize>,
    phase: Phase,
}

impl Model for DeployTask {
    ghost use Rattle.deploy_task.specs.Deploying.{Deploying, IsMade};

    ghost Value = { Deploying };

    ghost view = { λ a. record { plan = a.deploy; id = a.id; kept = a.kept.items; phase = a.phase } };

    ghost invariant = { λ a. IsMade (record { plan = a.deploy; id = a.id; kept = a.kept.items; phase = a.phase }) };
}

impl DeployTask {
    /// Deploys this.
    pub fn new(alloc: Global, deploy: Deploy) -> Result<DeployTask, NoMemory>
        requires { MayDeploy deploy }
        ensures { IfOk result (IsBegun deploy) }
    {
        // known by these: the new one may stand in a list
        let _os = deploy.os.as_slice();
        let _commit = deploy.commit.as_slice();
        let _bootcsum = deploy.kernel.bootcsum.as_slice();
        let Numbered { id, kept } = number(
            alloc,
            &deploy.items,
            &deploy.used,
            &deploy.os,
            &deploy.commit,
        )?;
        let listed = ids_of(alloc, &deploy.items)?;
        Ok(DeployTask {
            alloc,
            deploy,
            id,
            kept,
            phase: Phase::Clean(CleanTask::new(alloc, listed)),
        })
    }

    /// Which deployment it is.
    pub fn id(&self) -> &DepId
        ensures { result.now ≡ self.now.id }
    {
        &self.id
    }

    /// The lock under which the next step must stand.
    pub fn needs(&self) -> Need
        ensures { result ≡ need_in self.now.phase }
    {
        match &self.phase {
            Phase::Swap(swap) => swap.needs(),
            Phase::Ended => Need::Nothing,
            _ => Need::Sysroot,
        }
    }
}
