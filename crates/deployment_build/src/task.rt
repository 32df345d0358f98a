ghost use Rattle.std.specs.Prelude.{◌≡◌, ◌<◌, ◌^◌, ℕ, IfOk};
ghost use Rattle.ost_types.specs.Path.{IsPath};
ghost use Rattle.fs_trait.specs.declared.task.Need.TheVariants as needs;
ghost use Rattle.repo_layout.specs.Paths.{stage_path};
ghost use Rattle.boot_model.specs.Items.{IsKver};
ghost use Rattle.kernel_copy.specs.Work.{begun as kernel_begun};
ghost use Rattle.deployment_build.specs.Deployment.{MayBuild, etc_of};
ghost use Rattle.deployment_build.specs.Work.{IsMade, begun, left, places_of};

mod steps;

use crate::deployment::NewDeployment;
use crate::phase::BuildPhase;
use crate::places::{Places, make_places};
use boot_model::DepId;
use checkout::CheckoutTask;
use folder_build::file_meta;
use fs_trait::Need;
use kernel_copy::{KernelFiles, KernelTask};
use ost_types::{FsPath, NoMemory, TryCopy};
use staged_file::{Plan, StagedFile};
use std::alloc::Global;
use std::marker::Model;
use tree_copy::TreeCopy;

/// The task that makes what a new deployment stands on, a step at a time: it checks its tree out, copies what its `etc` is to be,
/// puts its origin file, and the copies of its kernel. Where something stands at the path of its files it is refused by its first
/// step. After an error a part of it may stand there, and stays. That all outlasts a crash is for a later sync of all.
#[derive(Drop, Debug)]
pub struct DeploymentBuild {
    id: DepId,
    checkout: CheckoutTask,
    etc: TreeCopy,
    origin: StagedFile,
    kernel: KernelTask,
    phase: BuildPhase,
}

impl Model for DeploymentBuild {
    ghost use Rattle.deployment_build.specs.Work.{Building, IsMade};

    ghost Value = { Building };

    ghost view = { λ a. record { id = a.id; checkout = a.checkout; etc = a.etc; origin = a.origin; kernel = a.kernel; phase = a.phase } };

    ghost invariant = { λ a. IsMade (record { id = a.id; checkout = a.checkout; etc = a.etc; origin = a.origin; kernel = a.kernel; phase = a.phase }) };
}

impl DeploymentBuild {
    /// Makes this deployment; files are staged at a path that nobody else uses.
    pub fn new(
        alloc: Global,
        stage: FsPath,
        new: NewDeployment,
    ) -> Result<DeploymentBuild, NoMemory>
        requires { MayBuild stage new }
        ensures value { IfOk result (λ t. t ≡ begun stage new) }
        ensures made { IfOk result IsMade }
    {
        let NewDeployment {
            id,
            tree,
            etc,
            origin,
            kernel,
        } = new;
        // known by this: the steps that put the origin file can be counted
        let _length = origin.as_slice().len();
        let (places, kernel) = places_and_kernel(alloc, stage, &id, kernel)?;
        let plan = Plan {
            stage: places.stage,
            folder: places.folder,
            at: places.origin,
            meta: file_meta(alloc),
            bytes: origin,
            lock: Need::Sysroot,
        };
        Ok(DeploymentBuild {
            id,
            checkout: CheckoutTask::new(alloc, places.files, tree),
            etc: TreeCopy::new(alloc, places.etc, etc),
            origin: StagedFile::new(plan),
            kernel,
            phase: BuildPhase::Checkout,
        })
    }

    /// Which deployment it is.
    pub fn id(&self) -> &DepId
        ensures { result.now ≡ self.now.id }
    {
        &self.id
    }

    /// What the next step makes.
    pub fn phase(&self) -> BuildPhase
        ensures { result ≡ self.now.phase }
    {
        self.phase
    }

    /// The lock under which the next step must stand: a deployment that is being made isn't listed yet.
    pub fn needs(&self) -> Need
        ensures { result ≡ needs.Sysroot }
    {
        Need::Sysroot
    }

    /// At most so many steps are left; each byte that isn't copied counts as one, and a file whose copy isn't begun as the longest.
    pub fn left(&self) -> u128
        ensures value { result ≡ left self.now }
        ensures small { result < 2 ^ 98 }
    {
        match self.phase {
            BuildPhase::Checkout => {
                self.checkout.left() + self.etc.left() + self.origin.left() + self.kernel.left() + 3
            }
            BuildPhase::Etc => self.etc.left() + self.origin.left() + self.kernel.left() + 2,
            BuildPhase::Origin => self.origin.left() + self.kernel.left() + 1,
            BuildPhase::Kernel => self.kernel.left(),
            BuildPhase::Ended | BuildPhase::Refused => 0,
        }
    }
}

/// Where the deployment is built, and what puts the copies of its kernel.
fn places_and_kernel(
    alloc: Global,
    stage: FsPath,
    id: &DepId,
    files: KernelFiles,
) -> Result<(Places, KernelTask), NoMemory>
    requires etc { IsPath (etc_of id.now) }
    requires staging { (actor : ℕ) × (stage ≡ stage_path actor) }
    requires version { IsKver files.kver }
    ensures { IfOk result (λ both. (both.0 ≡ places_of stage id.now) × (both.1 ≡ kernel_begun stage id.now.os files)) }
{
    let places = make_places(alloc, &stage, id)?;
    let kernel = KernelTask::new(alloc, stage, id.os.copy()?, files)?;
    Ok((places, kernel))
}
